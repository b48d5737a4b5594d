//! What holds of labels.
ghost use Rattle.lettering.specs.Laws.{UsualLabelsAreTurned};

/// In the usual style, with letters of any size, a label that is turned by quarters has the strokes and the
/// end of the stick font's label of its text, each point turned, if `is_core_text` says so.
pub fn usual_labels_are_turned()
    ensures { UsualLabelsAreTurned }
{}
