// Long texts: a map that is a given prefix, filled up with the letter a.
use crate::answers;
use report::Words;

// The text of a map that is the prefix and so many bytes of the filling.
fn text_of_front(map: &mut [u8], prefix: &[u8], fill: usize) -> Words {
    let size = arithmetic::saturating_add_usize(prefix.len(), fill);
    if map.len() < size {
        return report::no_words();
    }
    copies::put_front(map, prefix);
    map[prefix.len()..size].fill(b'a');
    answers::answer(b't', &map[..size])
}

// The input is the number of filling bytes, and then the prefix. Out of line: else each record would take the room of its map, 1.1 MB.
#[inline(never)]
pub(crate) fn filled_text(input: &[u8]) -> Words {
    let Ok((fill, at)) = byte_source::read_u32_be(input, 0) else {
        return report::no_words();
    };
    let Some(prefix) = input.get(at..) else {
        return report::no_words();
    };
    let mut map = report::large();
    text_of_front(&mut map, prefix, fill as usize)
}
