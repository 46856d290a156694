//! The line of a point, and the line of a face.
ghost use Rattle.std.specs.Prelude.{◌≡◌, ◌<◌, ◌≤◌, ◌+◌, ◌++◌, ◌^◌, length};
ghost use Rattle.pm_base.specs.declared.limits.TheConstants.{MOST_VERTICES};
ghost use Rattle.pm_base.specs.Canonical.{last_digits, coordinate_text, point_line, corner_line};

use pm_base::{Corners, Point};
use pm_io::Line;

// 10 to the power of the number of digits.
fn scale(digits: u32) -> u32
    requires { digits ≤ 4 }
    ensures value { result ≡ 10 ^ digits }
    ensures some { 0 < result }
    ensures most { result ≤ 10000 }
{
    match digits {
        0 => 1,
        1 => 10,
        2 => 100,
        3 => 1_000,
        _ => 10_000,
    }
}

// Adds the last digits of a number, exactly so many.
fn add_digits(line: &mut Line, digits: u32, n: u32)
    requires few { digits ≤ 4 }
    requires room { length line.old + 4 ≤ 128 }
    ensures text { line.new ≡ line.old ++ last_digits digits n }
    ensures short { length line.new ≤ length line.old + 4 }
{
    let mut k = digits;
    while 0 < k {
        k -= 1;
        line.add(&[b'0' + (n / scale(k) % 10) as u8]);
    }
}

// Adds a coordinate with so many decimals.
#[tactic(auto, unfolding(pm_base::specs::Canonical::coordinate_text))]
fn add_coordinate(line: &mut Line, digits: u32, n: i32)
    requires few { digits ≤ 4 }
    requires room { length line.old + 16 ≤ 128 }
    ensures text { line.new ≡ line.old ++ coordinate_text digits n }
    ensures short { length line.new ≤ length line.old + 16 }
{
    if digits == 0 {
        line.add_signed(n);
        return;
    }
    if n < 0 {
        line.add(b"-");
    }
    let unit = scale(digits);
    line.add_number(n.unsigned_abs() / unit);
    line.add(b".");
    add_digits(line, digits, n.unsigned_abs() % unit);
}

/// Makes the line that of a point, with so many decimals.
#[tactic(auto, unfolding(pm_base::specs::Canonical::point_line))]
pub fn put_point(line: &mut Line, digits: u32, point: &Point)
    requires { digits ≤ 4 }
    ensures { line.new ≡ point_line digits point.now }
{
    line.clear();
    line.add(b"v ");
    add_coordinate(line, digits, point.x());
    line.add(b" ");
    add_coordinate(line, digits, point.y());
    line.add(b" ");
    add_coordinate(line, digits, point.z());
    line.add(b"\n");
}

/// Makes the line that of a face. In the text the vertices are numbered from 1.
#[tactic(auto, unfolding(pm_base::specs::Canonical::corner_line))]
pub fn put_corners(line: &mut Line, corners: &Corners)
    requires a { corners.now.a < MOST_VERTICES }
    requires b { corners.now.b < MOST_VERTICES }
    requires c { corners.now.c < MOST_VERTICES }
    ensures { line.new ≡ corner_line corners.now }
{
    line.clear();
    line.add(b"f ");
    line.add_number(corners.a + 1);
    line.add(b" ");
    line.add_number(corners.b + 1);
    line.add(b" ");
    line.add_number(corners.c + 1);
    line.add(b"\n");
}
