use qtc_base::Bytes;
use qtc_job_file::{Input, Keyword, Loaded, texts_named};
use std::test::Fail;

#[test]
fn words_are_spelled(rt: HostRuntime) -> Result<(), Fail> {
    assert!(rt; Keyword::Then.spelling() == b"then".as_slice());
    assert!(rt; matches!(Keyword::of(b"then"), Some(Keyword::Then)));
    assert!(rt; Keyword::of(b"thens").is_none());
    Ok(())
}

#[test]
fn texts_are_found_under_their_names(rt: HostRuntime) -> Result<(), Fail> {
    let alloc = rt.alloc();
    let mut loaded = Loaded::new(alloc);
    let name = Bytes::from_slice(alloc, b"t")?;
    loaded.add(name, Bytes::from_slice(alloc, b"x")?)?;
    assert!(rt; loaded.get(b"t") == Some(b"x".as_slice()));
    assert!(rt; loaded.text(b"t") == b"x".as_slice());
    assert!(rt; loaded.shared(b"t")?.as_slice() == b"x".as_slice());
    assert!(rt; loaded.get(b"u").is_none());
    let input = Input::Lines(Bytes::from_slice(alloc, b"t")?);
    assert!(rt; matches!(texts_named(&input), [name] if name.as_slice() == b"t".as_slice()));
    Ok(())
}
