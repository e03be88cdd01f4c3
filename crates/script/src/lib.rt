// Lines of a script: one line of text as a call, and bytes as hex text.
#![tactic(auto)]

pub mod hex;
pub mod line;
pub mod words;

#[cfg(test)]
mod tests {
    use crate::hex::{HexFault, decode, encode};
    use crate::line::parse;
    use std::alloc::{AllocError, Global};
    use std::test::Fail;

    // What a line gives, as text.
    fn told(heap: Global, text: &str) -> Result<String, AllocError> {
        match parse(heap, text) {
            Ok(line) => format!(in heap; "{line:?}"),
            Err(fault) => format!(in heap; "{fault}"),
        }
    }

    #[test]
    fn lines(rt: HostRuntime) -> Result<(), Fail> {
        let table = [
            ("", "Skipped"),
            (" \t\r", "Skipped"),
            ("  # message", "Skipped"),
            ("picture", "Picture { new_sequence: false }"),
            ("\tpicture  new \r", "Picture { new_sequence: true }"),
            ("clear", "Clear"),
            ("message 151", "Message { kind: 151, payload: [] }"),
            (
                "message 4294967295 60fF 0A",
                "Message { kind: 4294967295, payload: [96, 255, 10] }",
            ),
            (
                "look 151 18446744073709551615",
                "Look { kind: 151, n: 18446744073709551615 }",
            ),
            ("buffer 0", "Buffer(0)"),
            ("show", "Show"),
            ("foo 1", "unknown call \"foo\""),
            ("Picture", "unknown call \"Picture\""),
            ("picture old", "too many words, from \"old\" on"),
            ("picture new x", "too many words, from \"x\" on"),
            ("clear all", "too many words, from \"all\" on"),
            ("message", "a type is wanted, as in: message 151 60"),
            (
                "message 4294967296",
                "a type is wanted, as in: message 151 60",
            ),
            ("message +1", "a type is wanted, as in: message 151 60"),
            ("message 1 60 é2 1", "\"é2\" is not hex"),
            (
                "message 1 60 123 x",
                "a word of hex has an odd number of digits: \"123\"",
            ),
            ("look", "a type is wanted, as in: look 151 0"),
            ("look 1 x", "a number is wanted, as in: look 151 0"),
            ("look 1 2 3", "too many words, from \"3\" on"),
            (
                "buffer 18446744073709551616",
                "a number is wanted, as in: buffer 8192",
            ),
        ];
        for (text, wanted) in table {
            assert_eq!(rt; told(rt.alloc(), text)?.as_str(), wanted, "{}", text);
        }
        Ok(())
    }

    #[test]
    fn hex(rt: HostRuntime) -> Result<(), Fail> {
        assert_eq!(rt; encode(rt.alloc(), &[])?.as_str(), "");
        assert_eq!(rt; encode(rt.alloc(), &[0x97, 1, 0xAF])?.as_str(), "97 01 AF");
        assert_eq!(rt;
            decode(rt.alloc(), " 97 01aF ")?.as_slice(),
            &[0x97, 1, 0xAF][..]
        );
        assert!(rt; matches!(decode(rt.alloc(), "97 0"), Err(HexFault::Odd(3))));
        Ok(())
    }
}
