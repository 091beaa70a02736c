//! The law of texts.

ghost use Rattle.instruction_text.specs.Laws.{AreToldApart};

/// No two instructions have one text: from equal texts follow equal instructions.
pub fn texts_are_told_apart()
    ensures { AreToldApart }
{}
