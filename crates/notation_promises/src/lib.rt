//! What is promised of texts in the notation, of what they give, and of what is printed: nothing but statements, each
//! the contract of a function that does nothing.
#![tactic(auto)]

ghost use Rattle.notation_promises.specs.Texts.{TextsPromised};
ghost use Rattle.notation_promises.specs.Cases.{TextCases};
ghost use Rattle.notation_promises.specs.Constants.{Constants};
ghost use Rattle.notation_promises.specs.OneValue.{OneValues};

/// All that is promised of texts.
pub fn texts_promised()
    ensures { TextsPromised }
{}

/// Texts, and the words of the files that they give, in literals.
pub fn text_cases()
    ensures { TextCases }
{}

/// The public constants.
pub fn constants()
    ensures { Constants }
{}

/// Where memory does not run out, a text and a file have one value.
#[tactic(auto, using(crate::proofs::OneValues::one_values))]
pub fn one_values()
    ensures { OneValues }
{}
