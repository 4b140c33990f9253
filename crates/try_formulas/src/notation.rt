// Numbers in rows, written as document 01 writes nodes: "kind and fields, unused zeros left out".

// Reads rows, as in "2 1, 4 8 0 1", into words that hold zeros, so many words to a row (one at least), as long
// as there is room. The words of these rows.
pub fn read<'a>(text: &str, width: usize, words: &'a mut [u32]) -> &'a [u32] {
    let width = width.max(1);
    let rows = if text.is_empty() {
        0
    } else {
        text.split(", ").count()
    };
    for (row, fields) in words.chunks_exact_mut(width).zip(text.split(", ")) {
        for (word, field) in row.iter_mut().zip(fields.split(' ')) {
            *word = field.parse().unwrap_or(0);
        }
    }
    let end = rows.saturating_mul(width).min(words.len());
    &words[..end]
}
