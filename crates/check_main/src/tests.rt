//! What the tests share.
use std::alloc::Global;
use std::test::Fail;

pub(crate) fn texts(alloc: Global, words: &[&str]) -> Result<Vec<String>, Fail> {
    let mut texts = Vec::new(alloc);
    for word in words {
        texts.push(String::from_str(alloc, word)?)?;
    }
    Ok(texts)
}
