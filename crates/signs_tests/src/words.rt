// House codes as a person writes them.
use console::house::house_codes;
use std::test::Fail;

fn written(rt: &HostRuntime, text: &str, codes: &[u32]) -> Result<bool, Fail> {
    match house_codes(rt.alloc(), text)? {
        Some(found) => Ok(found.as_slice() == codes),
        None => Ok(false),
    }
}

#[test]
fn codes_of_a_text(rt: HostRuntime) -> Result<(), Fail> {
    assert!(rt; written(&rt, "", &[])? && written(&rt, "   ", &[])?);
    assert!(rt; written(&rt, "☀", &[0x2600])? && written(&rt, "U+2600", &[0x2600])?);
    assert!(rt; written(&rt, " é  U+1f600 U ☀ ", &[0xE9, 0x1F600, 0x55, 0x2600])?);
    assert!(rt;
        written(
            &rt,
            "U+D800 U+FFFFFFFF U+00000000041",
            &[0xD800, u32::MAX, 0x41],
        )?
    );
    assert!(rt; written(&rt, "a b c d e f", &[0x61, 0x62, 0x63, 0x64, 0x65, 0x66])?);
    Ok(())
}

#[test]
fn words_that_name_no_code(rt: HostRuntime) -> Result<(), Fail> {
    for text in [
        "ab",
        "U+",
        "U+G",
        "u+41",
        "U+100000000",
        "☀☁",
        "☀ U+ ☁",
        "U+ 41",
        "U++41",
    ] {
        assert!(rt; house_codes(rt.alloc(), text)?.is_none());
    }
    Ok(())
}
