// The form told by the tokens. Expected values are worked out by hand.
use crate::constant_of;
use c_tokens::tokens;
use std::alloc::Global;
use std::test::Fail;

// The constant of a short file.
fn told(alloc: Global, text: &str) -> Option<u32> {
    let bytes = text.as_bytes();
    if bytes.len() > 100 {
        return None;
    }
    match tokens(alloc, bytes) {
        Ok(list) => constant_of(bytes, &list),
        Err(_) => None,
    }
}

#[test]
fn files_and_their_constants(rt: HostRuntime) -> Result<(), Fail> {
    for (text, constant) in [
        ("int main(void) { return 7; }", Some(7)),
        ("int main(void){return 0;}", Some(0)),
        ("int main(void) { return 2147483647; }", Some(2_147_483_647)),
        (" \tint\r\nmain ( void )\x0b{\x0creturn 10 ; }\n", Some(10)),
        ("int/**/main(void) { return/*;*/12; } // done", Some(12)),
        (
            "# 1 \"seven.c\"\nint main(void)\n  #2 3\n{ return 7; }\n#1",
            Some(7),
        ),
        ("", None),
        ("intmain(void) { return 7; }", None),
        ("int main(void) { return7; }", None),
        ("int main(void) { return 7l; }", None),
        ("int main(void) { return 7u; }", None),
        ("int main(void) { return 07; }", None),
        ("int main(void) { return 0x7; }", None),
        ("int main(void) { return 2147483648; }", None),
        ("int main(void) { return 'a'; }", None),
        ("int main(void) { return -7; }", None),
        ("int main(void) { return (7); }", None),
        ("int main() { return 7; }", None),
        ("int f(void) { return 7; }", None),
        ("int main(void) { return 7; } ;", None),
        ("int main(void) { return 7;", None),
        ("int main(void) { return 7; } # pragma", None),
        ("int main(void) { return 7; } /*", None),
        ("int main(void) { return 7; }\x00", None),
    ] {
        assert_eq!(rt; told(rt.alloc(), text), constant, "{text}");
    }
    Ok(())
}
