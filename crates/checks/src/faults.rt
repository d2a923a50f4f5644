//! Faults as they are printed: the layer's letter, the number and the place.
use fault::{Layer, Refusal};
use std::test::Fail;

#[test]
fn letter_number_and_place(rt: HostRuntime) -> Result<(), Fail> {
    for (fault, text) in [
        (Layer::Store.refuses(Refusal::NoJobOpen(5)), "S 3 5"),
        (Layer::Text.refuses(Refusal::UnknownCommand), "T 11 1"),
        (
            Layer::Memory.refuses(Refusal::AddressOutOfRange(u64::MAX)),
            "M 4 18446744073709551615",
        ),
        (Layer::Book.refuses(Refusal::StoreConflict(0)), "B 7 0"),
        (Layer::Marks.refuses(Refusal::MarksApart(64)), "K 10 64"),
    ] {
        let printed = format!(in rt.alloc(); "{fault}")?;
        assert_eq!(rt; printed.as_str(), text);
    }
    Ok(())
}
