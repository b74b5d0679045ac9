//! What the text of a reply itself promises, as the contract of a function that does nothing.
ghost use Rattle.sw_message.specs.Reply.{CarriesItsLength, FitsItsRoom};

/// Every reply that can be written says the length of what a GET would carry, and carries that or nothing; one with status 100 or 204
/// has neither a length nor a body.
pub fn carries_its_length()
    ensures { CarriesItsLength }
{}

/// The room that is made for a reply's text holds all of it.
pub fn fits_its_room()
    ensures { FitsItsRoom }
{}
