//! Laws of the words. Each function does nothing: its clause is the law.

ghost use Rattle.std.specs.Prelude.{◌≡◌, ℕ, List};
ghost use Rattle.sw_words.specs.Serve.{AreServeWords};
ghost use Rattle.sw_words.specs.declared.serve.ServeOptions.{ServeOptions};

/// Words of `serve` write one thing at most.
pub fn words_write_one_thing()
    ensures { (words : List (List ℕ)) (one other : ServeOptions) → AreServeWords words one → AreServeWords words other → one ≡ other }
{}
