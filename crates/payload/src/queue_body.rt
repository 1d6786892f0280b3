// The body of a queue's payload: an item with the serial that orders it.
ghost use Rattle.std.specs.Prelude.{◌≡◌, Some, IfSome};
ghost use Rattle.mont_base.specs.Bodies.{item_body, item_in};

use crate::spare::are_zero;
use mont_base::BODY;

/// The body that holds an item after its serial.
pub fn item_body(serial: u64, item: u64) -> [u64; BODY]
    ensures words { result ≡ item_body serial item }
    ensures read_back { item_in result ≡ Some (serial, item) }
{
    [serial, item, 0, 0, 0, 0, 0, 0]
}

/// The serial and the item that a body holds; none where a word that isn't used isn't 0.
pub fn item_in(body: &[u64; BODY]) -> Option<(u64, u64)>
    ensures exact { result ≡ item_in body.now }
    ensures only { IfSome result (λ e. body.now ≡ item_body e.0 e.1) }
{
    let [serial, item, ..] = *body;
    are_zero(&body[2..]).then_some((serial, item))
}
