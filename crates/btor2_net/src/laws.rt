//! Circuits: laws of files and circuits.

// Each law of texts is the contract of a function that does nothing.
ghost use Rattle.btor2_net.specs.Laws as law;

/// A text of less than 2^32 - 1 bytes has fewer than 2^32 inputs, and as few states.
pub fn a_text_has_few_lines()
    ensures { law.HaveFewLines }
{}
