//! The fields that spell a ray, read from left to right.
ghost use Rattle.std.specs.Prelude.{◌≡◌, ◌<◌, ◌^◌, Some, None, MatchOption, IfOk, OnErr};
ghost use Rattle.pm_pick.specs.Fields.{three_of, ray_from, ray_of};

use crate::Ray;
use crate::limits::GREATEST_WAY_COMPONENT;
use pm_view::{GREATEST_EYE_COORDINATE, cut_field, next_field, read_small};

/// The text spells no ray.
#[derive(Clone, Copy, Debug, PartialEq, Eq)]
pub struct BadRay;

#[tactic(auto, unfolding(crate::specs::Fields::three_of))]
fn read_three(x: &[u8], y: &[u8], z: &[u8], most: u32) -> Option<(i32, i32, i32)>
    requires { most < 2 ^ 31 }
    ensures { MatchOption result (three_of most x.now y.now z.now ≡ None)
        (λ p. three_of most x.now y.now z.now ≡ Some (record { x = p.0; y = p.1; z = p.2 })) }
{
    let a = read_small(x, most)?;
    let b = read_small(y, most)?;
    let c = read_small(z, most)?;
    Some((a, b, c))
}

#[tactic(auto, unfolding(crate::specs::Fields::ray_from))]
fn ray_from(o: (i32, i32, i32), d: (i32, i32, i32)) -> Option<Ray>
    ensures { MatchOption result
        (ray_from (record { x = o.0; y = o.1; z = o.2 }) (record { x = d.0; y = d.1; z = d.2 })
        ≡ None) (λ r. ray_from (record { x = o.0; y = o.1; z = o.2 })
        (record { x = d.0; y = d.1; z = d.2 }) ≡ Some r) }
{
    Ray::new(o.0, o.1, o.2, d.0, d.1, d.2)
}

#[tactic(auto, unfolding(crate::specs::Fields::ray_in))]
fn ray_in(text: &[u8]) -> Option<Ray>
    ensures { MatchOption result (ray_of text.now ≡ None) (λ r. ray_of text.now ≡ Some r) }
{
    let (x, rest) = cut_field(text);
    let (y, rest) = next_field(rest)?;
    let (z, rest) = next_field(rest)?;
    let (a, rest) = next_field(rest)?;
    let (b, rest) = next_field(rest)?;
    let (c, rest) = next_field(rest)?;
    if next_field(rest).is_some() {
        return None;
    }
    let origin = read_three(x, y, z, GREATEST_EYE_COORDINATE)?;
    let way = read_three(a, b, c, GREATEST_WAY_COMPONENT)?;
    ray_from(origin, way)
}

/// The ray that a text spells: the three numbers of its origin and the three of its way, separated
/// by one space. It takes no memory.
///
/// BadRay comes exactly where the text isn't of this form, a number is out of range, or the way is
/// 0.
pub fn read_ray(fields: &[u8]) -> Result<Ray, BadRay>
    ensures ok { IfOk result (λ ray. ray_of fields.now ≡ Some ray) }
    ensures bad { OnErr result (ray_of fields.now ≡ None) }
{
    ray_in(fields).ok_or(BadRay)
}
