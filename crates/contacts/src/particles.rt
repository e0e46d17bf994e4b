//! Particles in a box, and which of them touch.
use rand_core::SeedableRng;
use rand_core::utils::NextWord;
use rand_pcg::Pcg32;
use std::alloc::{AllocError, Global};

// How many units wide and high the box is.
const WIDTH: u32 = 65_536;

/// A position in the box.
#[derive(Clone, Copy, Debug)]
pub struct Particle {
    x: u16,
    y: u16,
}

/// Two particles that touch, and the square of their distance.
#[derive(Clone, Copy, Debug, PartialEq, Eq, PartialOrd, Ord)]
pub struct Contact {
    pub first: usize,
    pub second: usize,
    pub distance: u64,
}

// How near two particles are that touch, squared.
const REACH: u64 = 500 * 500;

/// Particles at random places of the box.
pub fn scatter(alloc: Global, count: u32, seed: u64) -> Result<Vec<Particle>, AllocError> {
    let mut words = Pcg32::seed_from_u64(seed);
    let mut particles = Vec::with_capacity(alloc, count as usize)?;
    for _ in 0..count {
        let word = words.next_word();
        particles.push(Particle {
            x: (word / WIDTH) as u16,
            y: (word % WIDTH) as u16,
        })?;
    }
    Ok(particles)
}

// The square of how far apart two particles are. What leaves the box on one side comes in on the other.
fn distance(a: Particle, b: Particle) -> u64 {
    let x = u64::from(a.x.wrapping_sub(b.x).min(b.x.wrapping_sub(a.x)));
    let y = u64::from(a.y.wrapping_sub(b.y).min(b.y.wrapping_sub(a.y)));
    x * x + y * y
}

/// Returns the contact of two particles, if they touch.
pub fn touch(particles: &[Particle], first: usize, second: usize) -> Option<Contact> {
    let distance = distance(*particles.get(first)?, *particles.get(second)?);
    if distance > REACH {
        return None;
    }
    Some(Contact {
        first,
        second,
        distance,
    })
}
