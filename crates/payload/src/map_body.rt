// The body of a map's payload: a key with its value.
ghost use Rattle.std.specs.Prelude.{◌≡◌, Some, IfSome};
ghost use Rattle.mont_base.specs.Bodies.{pair_body, pair_in, value_in};

use mont_base::{BODY, Text};

/// The body that holds a pair.
pub fn pair_body(key: &Text, value: &Text) -> [u64; BODY]
    ensures words { result ≡ pair_body key.now value.now }
    ensures read_back { pair_in result ≡ Some (key.now, value.now) }
{
    let [key_len, key_first, key_second, key_third] = key.words();
    let [value_len, value_first, value_second, value_third] = value.words();
    [
        key_len,
        value_len,
        key_first,
        key_second,
        key_third,
        value_first,
        value_second,
        value_third,
    ]
}

/// The pair that a body holds; none where the words of the key or of the value are no text.
pub fn pair_in(body: &[u64; BODY]) -> Option<(Text, Text)>
    ensures exact { result ≡ pair_in body.now }
    ensures only { IfSome result (λ p. body.now ≡ pair_body p.0 p.1) }
{
    let [len, _, first, second, third, ..] = *body;
    let key = Text::of_words([len, first, second, third])?;
    let value = value_in(body)?;
    Some((key, value))
}

/// The value alone of the pair that a body holds; none where its words are no text.
pub fn value_in(body: &[u64; BODY]) -> Option<Text>
    ensures { result ≡ value_in body.now }
{
    let [_, len, _, _, _, first, second, third] = *body;
    Text::of_words([len, first, second, third])
}
