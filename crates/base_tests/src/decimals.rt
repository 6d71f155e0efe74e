//! Texts that are decimal numbers.
use decimal_text::decimal_number;

#[test]
fn reads_decimal_numbers(rt: HostRuntime) {
    for (text, number) in [
        ("0", Some(0)),
        ("4294967295", Some(4_294_967_295)),
        ("4294967296", None),
        ("08", None),
        ("+1", None),
        ("", None),
    ] {
        assert!(rt; decimal_number(text.as_bytes()) == number, "{text}");
    }
}
