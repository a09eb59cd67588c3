//! The laws of the grammar. They are proved, and compute nothing.

ghost use Rattle.koika_parse.specs.Laws as law;

/// Two trees that derive the same tokens of a text are the same.
#[tactic(auto, using(crate::proofs::Unambiguous::one_tree))]
pub fn tokens_are_derived_by_one_tree()
    ensures { law.OneTree }
{}

/// Two trees of the grammar that have the same tokens are the same up to places.
#[tactic(auto, using(crate::proofs::Unambiguous::one_tree_up_to_places))]
pub fn trees_of_the_same_tokens_differ_in_places_alone()
    ensures { law.OneTreeUpToPlaces }
{}

/// Where the tokens of a text are a tree's, each tree that derives them is that tree up to places.
#[tactic(auto, using(crate::proofs::Unambiguous::read_again))]
pub fn what_is_printed_is_read_again()
    ensures { law.ReadAgain }
{}

/// Two faults that are between the tokens of one text are the same.
pub fn a_text_has_one_fault()
    ensures { law.OneFault }
{}

/// Where a tree derives the tokens with few open brackets, no fault is between them.
pub fn a_design_has_no_fault()
    ensures { law.NoFault }
{}

/// The tokens of a text are a tree's with few open brackets, or a fault is between them.
pub fn each_text_is_parsed()
    ensures { law.EachTextIsParsed }
{}
