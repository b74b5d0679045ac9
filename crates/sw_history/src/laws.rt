//! Laws of histories. Each function does nothing: its clause is the law.

ghost use Rattle.sw_history.specs.Laws.{GrowthGoesOn};

/// A history that is later than a later one is later.
pub fn growth_goes_on<K, V, E, D>()
    ensures { GrowthGoesOn K V E D }
{}
