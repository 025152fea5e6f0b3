//! Tests of whether two answers are equal.

ghost use Rattle.std.specs.Prelude.{◌≡◌, ◌↔◌, [], ◌∷◌, IsTrue};

use pay_book::{Excerpt, Line, ShownEntry, Statement};
use pay_frame::{Body, Bytes};

/// Returns whether the bodies `a` and `b` are equal.
pub fn is_same_body(a: &Body, b: &Body) -> bool
    ensures { IsTrue result ↔ (a.now ≡ b.now) }
{
    a.kind() == b.kind() && a.owner() == b.owner() && a.seq() == b.seq() && a.value() == b.value()
}

pub(crate) fn is_same_statement(a: &Option<Statement>, b: &Option<Statement>) -> bool
    ensures { IsTrue result ↔ (a.now ≡ b.now) }
{
    match (a, b) {
        (Some(a), Some(b)) => a.balance() == b.balance() && are_same_lines(a.lines(), b.lines()),
        (None, None) => true,
        (Some(_), None) | (None, Some(_)) => false,
    }
}

fn are_same_lines(a: &[Line], b: &[Line]) -> bool
    ensures { IsTrue result ↔ (a.now ≡ b.now) }
{
    if a.len() != b.len() {
        return false;
    }
    for k in 0..a.len() {
        if a[k] != b[k] {
            return false;
        }
    }
    true
}

pub(crate) fn is_same_excerpt(a: &Option<Excerpt>, b: &Option<Excerpt>) -> bool
    ensures { IsTrue result ↔ (a.now ≡ b.now) }
{
    match (a, b) {
        (Some(a), Some(b)) => {
            a.first() == b.first()
                && a.balance() == b.balance()
                && are_same_entries(a.entries(), b.entries())
        }
        (None, None) => true,
        (Some(_), None) | (None, Some(_)) => false,
    }
}

fn are_same_entries(a: &[ShownEntry], b: &[ShownEntry]) -> bool
    ensures { IsTrue result ↔ (a.now ≡ b.now) }
{
    if a.len() != b.len() {
        return false;
    }
    for k in 0..a.len() {
        if !is_same_entry(&a[k], &b[k]) {
            return false;
        }
    }
    true
}

fn is_same_entry(a: &ShownEntry, b: &ShownEntry) -> bool
    ensures { IsTrue result ↔ (a.now ≡ b.now) }
{
    a.seq == b.seq && a.entry == b.entry && is_same_note(&a.note, &b.note)
}

fn is_same_note(a: &Option<Bytes>, b: &Option<Bytes>) -> bool
    ensures { IsTrue result ↔ (a.now ≡ b.now) }
{
    match (a, b) {
        (Some(a), Some(b)) => a.as_slice() == b.as_slice(),
        (None, None) => true,
        (Some(_), None) | (None, Some(_)) => false,
    }
}

pub(crate) fn are_same_bodies(a: &[Body], b: &[Body]) -> bool
    ensures { IsTrue result ↔ (a.now ≡ b.now) }
{
    if a.len() != b.len() {
        return false;
    }
    for k in 0..a.len() {
        if !is_same_body(&a[k], &b[k]) {
            return false;
        }
    }
    true
}

/// Returns whether `bodies` has `body` and nothing else.
pub fn is_alone(bodies: &[Body], body: &Body) -> bool
    ensures { IsTrue result ↔ (bodies.now ≡ body.now ∷ []) }
{
    bodies.len() == 1 && is_same_body(&bodies[0], body)
}
