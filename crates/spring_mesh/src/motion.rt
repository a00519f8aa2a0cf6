ghost use Rattle.std.specs.Prelude.{◌≡◌, ◌≤◌, ◌+ℤ◌, ◌-ℤ◌, ℕ};
ghost use Rattle.std.specs.Int.{saturate_signed, w64};
ghost use Rattle.spring_mesh.specs.Files.{IsMass, IsNode, IsSpring, IsWithin};
ghost use Rattle.spring_mesh.specs.LineForms.{latest, reach};
ghost use Rattle.spring_mesh.specs.Motion.{brought_to, change_by, clamped, first_after, impulse, moved, second_after};

use crate::{MeshNode, Spring};

/// How far from 0 a place and a speed may be. All arithmetic saturates at 64 bits: what doesn't fit
/// there is so far beyond reach that it comes to the same.
const REACH: i64 = 1_099_511_627_776;

/// The nearest number within reach.
#[inline(always)]
fn clamped(number: i64) -> i64
    ensures { result ≡ clamped number }
{
    number.clamp(-REACH, REACH)
}

/// Where a thing is that moved at a speed for a time.
#[inline(always)]
fn moved(place: i64, speed: i64, time: i64) -> i64
    requires { IsWithin reach place }
    ensures { result ≡ moved place speed time }
{
    clamped(place.saturating_add(speed.saturating_mul(time)))
}

/// A node as it is at a time, where nothing changed its speed until then.
#[inline(always)]
pub(crate) fn brought_to(node: &MeshNode, time: u64) -> MeshNode
    requires node { IsNode node.now }
    requires time { time ≤ latest }
    ensures { result ≡ brought_to time node.now }
{
    let passed = time as i64 - node.time as i64;
    MeshNode {
        x: moved(node.x, node.vx, passed),
        y: moved(node.y, node.vy, passed),
        vx: node.vx,
        vy: node.vy,
        time,
    }
}

/// The ends of a spring after a step, where both are at the same time.
#[inline(always)]
pub(crate) fn ends_after(
    spring: &Spring,
    masses: (i64, i64),
    a: &MeshNode,
    b: &MeshNode,
) -> (MeshNode, MeshNode)
    requires spring { (nodes : ℕ) × IsSpring nodes spring.now }
    requires masses { IsMass masses.0 × IsMass masses.1 }
    requires a { IsNode a.now }
    requires b { IsNode b.now }
    ensures first { result.0 ≡ first_after spring.now masses.0 a.now b.now }
    ensures second { result.1 ≡ second_after spring.now masses.1 a.now b.now }
{
    let (first_x, second_x) = changes_by(impulse(spring, spring.rx, a.x, b.x), masses);
    let (first_y, second_y) = changes_by(impulse(spring, spring.ry, a.y, b.y), masses);
    let first = MeshNode {
        vx: faster(a.vx, first_x),
        vy: faster(a.vy, first_y),
        ..*a
    };
    let second = MeshNode {
        vx: slower(b.vx, second_x),
        vy: slower(b.vy, second_y),
        ..*b
    };
    (first, second)
}

/// What a spring gives along one axis in one step, where at rest its second end is so far from the
/// first, and they are at these places.
#[inline(always)]
fn impulse(spring: &Spring, rest: i64, from: i64, to: i64) -> i64
    requires spring { (nodes : ℕ) × IsSpring nodes spring.now }
    requires rest { IsWithin reach rest }
    requires from { IsWithin reach from }
    requires to { IsWithin reach to }
    ensures { result ≡ saturate_signed w64 (impulse spring.now rest from to) }
{
    (spring.k * (to - from - rest)).saturating_mul(spring.h as i64)
}

/// How much that changes the speeds of both ends, which is divided once where they weigh the same.
#[inline(always)]
fn changes_by(given: i64, masses: (i64, i64)) -> (i64, i64)
    requires { IsMass masses.0 × IsMass masses.1 }
    ensures first { result.0 ≡ change_by given masses.0 }
    ensures second { result.1 ≡ change_by given masses.1 }
{
    let first = change_by(given, masses.0);
    if masses.1 == masses.0 {
        return (first, first);
    }
    (first, change_by(given, masses.1))
}

/// How much that changes the speed of a mass, rounded towards minus infinity.
#[inline(always)]
fn change_by(given: i64, mass: i64) -> i64
    requires { IsMass mass }
    ensures { result ≡ change_by given mass }
{
    // The sign changes from step to step, so it is no branch.
    let size = if given < 0 { !given } else { given };
    let change = quotient(size, mass);
    if given < 0 { !change } else { change }
}

/// A number divided by a mass. What fits into 32 bits is divided there, in half the time or less.
#[inline(always)]
fn quotient(number: i64, mass: i64) -> i64
    requires { IsMass mass }
    ensures { result ≡ change_by number mass }
{
    match u32::try_from(number) {
        Ok(number) => i64::from(number / mass as u32),
        Err(_) => number.div_euclid(mass),
    }
}

/// A speed that has grown by so much.
#[inline(always)]
fn faster(speed: i64, change: i64) -> i64
    ensures { result ≡ clamped (speed +ℤ change) }
{
    clamped(speed.saturating_add(change))
}

/// A speed that has shrunk by so much.
#[inline(always)]
fn slower(speed: i64, change: i64) -> i64
    ensures { result ≡ clamped (speed -ℤ change) }
{
    clamped(speed.saturating_sub(change))
}
