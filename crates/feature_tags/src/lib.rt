// tag.rs: the texts of a collected feature as a fetch tells of them, with the tags that are made of them.
#![tactic(auto)]

ghost use Rattle.std.specs.Prelude.{◌≡◌};
ghost use Rattle.types.specs.Types.{maybe_part};
ghost use Rattle.fetched.specs.Fetched.{tag_string, keyed, no_text};
ghost use Rattle.feature_tags.specs.FeatureTags.{own_texts, texts_of};

use byte_source::Span;
use feature_texts::TextParts;
use fetched::{FeatureTexts, TagText};
use tag::{Tag, TextKey};

// A tag's string, by its stored name.
fn tag_string(name: &[u8]) -> TagText
    ensures { result ≡ tag_string name.now }
{
    TagText {
        len: text::replaced_len(name),
        tag: tag::parse_tag(name),
    }
}

fn no_text() -> TagText
    ensures { result ≡ no_text }
{
    TagText {
        len: 0,
        tag: Tag {
            key_len: 0,
            value_len: 0,
            key_code: 0,
            value_code: 0,
        },
    }
}

// A text of the feature's own, and the tag that is made of it.
fn own_text(map: &[u8], key: TextKey, text: Option<Span>) -> Option<TagText>
    ensures { result ≡ keyed key (maybe_part map.now text) }
{
    let bytes = byte_source::span_bytes(map, text?);
    Some(TagText {
        len: text::replaced_len(bytes),
        tag: tag::text_tag(key, bytes),
    })
}

// The texts of a feature without tags.
fn own_texts(map: &[u8], parts: TextParts) -> FeatureTexts
    ensures { result ≡ own_texts parts map.now }
{
    let empty = no_text();
    FeatureTexts {
        tags: [empty; 15],
        name: own_text(map, TextKey::Name, parts.name),
        house_number: own_text(map, TextKey::HouseNumber, parts.house_number),
        reference: own_text(map, TextKey::Ref, parts.reference),
    }
}

// The texts of a feature with these tag ids, of which it has 15 at most. The tags' strings are put where they are to stand: an array
// made beside the record would be copied into it.
pub fn texts_of(map: &[u8], starts: &[u64], ids: &[u64], parts: TextParts) -> FeatureTexts
    ensures { result ≡ texts_of starts.now parts map.now ids.now }
{
    let mut texts = own_texts(map, parts);
    for i in 0..ids.len().min(15) {
        let name = feature_texts::tag_name(map, starts, parts.tags, ids[i]);
        texts.tags[i] = tag_string(name);
    }
    texts
}
