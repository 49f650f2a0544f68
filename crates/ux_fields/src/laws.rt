//! A call and its word with its fields are the same thing twice.

ghost use Rattle.ux_fields.specs.Rows.{CallsAreMadeAgain, FieldsAreKept};

/// The word and the fields of a call make that call.
#[tactic(auto, using(crate::proofs::Making::made_again))]
pub fn calls_are_made_again()
    ensures { CallsAreMadeAgain }
{}

/// What a word and fields make has this word and these fields.
pub fn fields_are_kept()
    ensures { FieldsAreKept }
{}
