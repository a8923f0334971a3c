// Filtering: how a row of heights, which moves over faces, and a row of reduced velocities are smoothed.
#![tactic(auto)]

ghost use Rattle.std.specs.Prelude.{◌≡◌, ◌+◌, ◌-◌};
ghost use Rattle.whole.specs.Row.{padded};
ghost use Rattle.rule.specs.Filter.{face_weights, smoothed, smoothed_reduced};
ghost use Rattle.rule.specs.Mirror.{even};
ghost use Rattle.rule.specs.Rows.{weighed};
ghost use Rattle.rule.specs.Ranges.{most_height, most_reduced};
ghost use Rattle.motion.specs.Asked.{Cells};
ghost use Rattle.motion.specs.Walled.{inner};

use rows::{Even, Odd};

// The filter's weights at a face, on cells j - 3 to j + 4, over 256.
const FACES: [i64; 8] = [-1, 7, -21, 35, -35, 21, -7, 1];

// And in a cell, on cells j - 4 to j + 4.
const CELLS: [i64; 9] = [-1, 8, -28, 56, 186, 56, -28, 8, -1];

// What drains over the face on the right of cell j, not yet divided by 256, and nothing over the wall.
fn draining(n: usize, e: &[i64], j: usize) -> i64
    requires { Cells most_height n e.now }
    ensures { result ≡ inner (n - 1) (λ i. weighed face_weights (even n e.now) (i + 1)) j }
{
    if j < n - 1 {
        rows::weigh::<Even>(e, n, j + 1, &FACES)
    } else {
        0
    }
}

// The heights after the filter.
pub fn smoothed(n: usize, e: &[i64]) -> [i64; rule::MOST_CELLS]
    requires { Cells most_height n e.now }
    ensures { result ≡ padded n (smoothed n e.now) }
{
    let mut row = [0; rule::MOST_CELLS];
    let mut left = 0;
    for (j, height) in row[..n].iter_mut().enumerate() {
        let drained = draining(n, e, j);
        let g = round::rounded(-drained, 256);
        *height = e[j] + g + left;
        left = -g;
    }
    row
}

// The reduced velocities after the filter.
pub fn smoothed_reduced(n: usize, v: &[i64]) -> [i64; rule::MOST_CELLS]
    requires { Cells most_reduced n v.now }
    ensures { result ≡ padded n (smoothed_reduced n v.now) }
{
    let mut row = [0; rule::MOST_CELLS];
    for (j, reduced) in row[..n].iter_mut().enumerate() {
        *reduced = round::rounded(rows::weigh::<Odd>(v, n, j, &CELLS), 256);
    }
    row
}
