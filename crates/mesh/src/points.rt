//! Points, the file that they are read from, and which two of them have an edge.
use anyhow::{Context, Result};
use std::alloc::Global;

// Two points have an edge if they are nearer to each other than this.
const REACH: u16 = 150;

/// A point of the plane, with its line in the file. The order is by `x` first.
#[derive(Clone, Copy, Debug, PartialEq, Eq, PartialOrd, Ord)]
pub struct Point {
    x: u16,
    y: u16,
    line: u32,
}

/// The lines of two points that are near each other, the lower one first.
#[derive(Clone, Copy, Debug, PartialEq, Eq, PartialOrd, Ord)]
pub struct Edge {
    pub low: u32,
    pub high: u32,
}

/// Reads a point from each line of a text, and sorts the points.
pub fn read_points(alloc: Global, text: &str) -> Result<Vec<Point>> {
    let mut points = Vec::new(alloc);
    for (line, words) in (1u32..).zip(text.lines()) {
        points.push(parse_point(line, words).context(format_args!("line {line}"))?)?;
    }
    points.sort_unstable();
    Ok(points)
}

// Parses the two coordinates of a line.
fn parse_point(line: u32, words: &str) -> Result<Point> {
    let (x, y) = words.split_once(' ').context("no second coordinate")?;
    let x = x.parse()?;
    let y = y.parse()?;
    Ok(Point { x, y, line })
}

impl Point {
    /// Returns the edge to another point, if they have one. It is the same from both.
    pub fn edge_to(&self, other: &Point) -> Option<Edge> {
        let x = u64::from(self.x.abs_diff(other.x));
        let y = u64::from(self.y.abs_diff(other.y));
        let reach = u64::from(REACH);
        if self.line == other.line || x * x + y * y >= reach * reach {
            return None;
        }
        Some(Edge {
            low: self.line.min(other.line),
            high: self.line.max(other.line),
        })
    }

    /// Returns those of the sorted points that have an `x` near this one's.
    pub fn strip<'a>(&self, points: &'a [Point]) -> &'a [Point] {
        let left = self.x.saturating_sub(REACH);
        let right = self.x.saturating_add(REACH);
        let from = points.partition_point(|point| point.x < left);
        let to = points.partition_point(|point| point.x <= right);
        points.get(from..to).unwrap_or(&[])
    }
}
