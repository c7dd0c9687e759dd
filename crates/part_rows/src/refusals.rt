//! Refused texts.
use crate::out::Out;
use task_reader::InputRefusal;

/// Writes the kind of the fault and its place.
pub(crate) fn write_refusal(out: &mut Out, refusal: InputRefusal) {
    match refusal {
        InputRefusal::At { kind, place } => {
            out.put_bytes(kind.word());
            out.put(" ");
            out.print(place);
        }
        InputRefusal::Memory => out.lose(),
    }
}
