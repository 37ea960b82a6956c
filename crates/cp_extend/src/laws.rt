//! The laws of model texts. Each function does nothing, and its contract is the law.

ghost use Rattle.cp_extend.specs.Laws.{ReadsWithin, ReadsPrinted};

/// What a text reads as depends on no byte behind the first past the limit: so a reader answers what all the bytes that it was
/// fed read as.
pub fn reads_within()
    ensures { ReadsWithin }
{}

/// Within the limits the text of a model is read as the model.
pub fn printed_models_are_read()
    ensures { ReadsPrinted }
{}
