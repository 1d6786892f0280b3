// The bodies of a graph's payloads: a vertex or an edge, with its attribute.
ghost use Rattle.std.specs.Prelude.{◌≡◌, Some, IfSome};
ghost use Rattle.mont_base.specs.Bodies.{vertex_body, vertex_in, edge_body, edge_in, is_vertex_body, is_edge_body};

use crate::spare::are_zero;
use mont_base::{BODY, EDGE_TAG, VERTEX_TAG};

/// The body that holds a vertex.
pub fn vertex_body(vertex: u64, attribute: u64) -> [u64; BODY]
    ensures words { result ≡ vertex_body vertex attribute }
    ensures read_back { vertex_in result ≡ Some (vertex, attribute) }
{
    [VERTEX_TAG, vertex, attribute, 0, 0, 0, 0, 0]
}

/// Whether a body says that it holds a vertex.
pub fn is_vertex_body(body: &[u64; BODY]) -> bool
    ensures { result ≡ is_vertex_body body.now }
{
    body[0] == VERTEX_TAG
}

/// The vertex and the attribute that a body holds; none where it has another tag, or a word that
/// isn't used isn't 0.
pub fn vertex_in(body: &[u64; BODY]) -> Option<(u64, u64)>
    ensures exact { result ≡ vertex_in body.now }
    ensures only { IfSome result (λ e. body.now ≡ vertex_body e.0 e.1) }
{
    let [_, vertex, attribute, ..] = *body;
    (is_vertex_body(body) && are_zero(&body[3..])).then_some((vertex, attribute))
}

/// The body that holds an edge, which goes from one vertex to another.
pub fn edge_body(ends: (u64, u64), attribute: u64) -> [u64; BODY]
    ensures words { result ≡ edge_body ends attribute }
    ensures read_back { edge_in result ≡ Some (ends, attribute) }
{
    let (from, to) = ends;
    [EDGE_TAG, from, to, attribute, 0, 0, 0, 0]
}

/// Whether a body says that it holds an edge.
pub fn is_edge_body(body: &[u64; BODY]) -> bool
    ensures { result ≡ is_edge_body body.now }
{
    body[0] == EDGE_TAG
}

/// The ends and the attribute of the edge that a body holds; none where it has another tag, or a
/// word that isn't used isn't 0.
pub fn edge_in(body: &[u64; BODY]) -> Option<((u64, u64), u64)>
    ensures exact { result ≡ edge_in body.now }
    ensures only { IfSome result (λ e. body.now ≡ edge_body e.0 e.1) }
{
    let [_, from, to, attribute, ..] = *body;
    (is_edge_body(body) && are_zero(&body[4..])).then_some(((from, to), attribute))
}
