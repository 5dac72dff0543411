//! Vectors that the cases share.
use relay_text::Text;
use std::alloc::{AllocError, Global};

/// A vector of this item alone.
pub(crate) fn one<T: Drop>(alloc: Global, item: T) -> Result<Vec<T>, AllocError> {
    let mut items = Vec::new(alloc);
    items.push(item)?;
    Ok(items)
}

/// Puts a text behind others.
fn push_text(alloc: Global, texts: &mut Vec<Text>, text: &[u8]) -> Result<(), AllocError> {
    let text = Text::copy_of(alloc, text)?;
    Ok(texts.push(text)?)
}

fn push_texts(alloc: Global, texts: &mut Vec<Text>, wanted: &[&[u8]]) -> Result<(), AllocError> {
    for text in wanted {
        push_text(alloc, texts, text)?;
    }
    Ok(())
}

/// These texts, in this order.
pub(crate) fn texts(alloc: Global, wanted: &[&[u8]]) -> Result<Vec<Text>, AllocError> {
    let mut texts = Vec::new(alloc);
    match push_texts(alloc, &mut texts, wanted) {
        Ok(()) => Ok(texts),
        Err(error) => {
            drop(texts);
            Err(error)
        }
    }
}
