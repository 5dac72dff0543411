//! Alias files of several shapes.
ghost use Rattle.std.specs.Prelude.{◌≤◌};

use rand::seq::SliceRandom;
use rand_core::SeedableRng;
use rand_xoshiro::Xoshiro256PlusPlus;
use std::alloc::{AllocError, Global};

/// What an alias file's aliases lead to.
#[derive(Clone, Copy)]
pub enum Shape {
    /// Each to the next one, and the last to the first.
    Ring,
    /// The two of each pair to each other.
    Pairs,
    /// A line of pairs of which each leads into the next one, in the order of the line.
    LineUp,
    /// The same, the last pair first.
    LineDown,
    /// The same, in scattered order.
    LineScattered,
    /// Alias k to 2k + 1 and 2k + 2.
    Tree,
    /// Each to each other one.
    Complete,
    /// One to each other one, and these back to it.
    Star,
    /// Each to two that are chosen at random.
    Random,
}

impl Shape {
    pub const ALL: [Shape; 9] = [
        Shape::Ring,
        Shape::Pairs,
        Shape::LineUp,
        Shape::LineDown,
        Shape::LineScattered,
        Shape::Tree,
        Shape::Complete,
        Shape::Star,
        Shape::Random,
    ];

    pub fn name(self) -> &'static str {
        match self {
            Shape::Ring => "ring",
            Shape::Pairs => "pairs",
            Shape::LineUp => "line-up",
            Shape::LineDown => "line-down",
            Shape::LineScattered => "line-scattered",
            Shape::Tree => "tree",
            Shape::Complete => "complete",
            Shape::Star => "star",
            Shape::Random => "random",
        }
    }

    /// An alias file of this shape, where N aliases are asked for. There are N / 10 pairs, no more than 2,000
    /// where each leads to each other one, and N otherwise.
    pub fn text(self, alloc: Global, aliases: u32) -> Result<String, AllocError>
        requires { aliases ≤ 10000000 }
    {
        let mut text = String::new(alloc);
        let pairs = aliases / 10;
        match self {
            Shape::Ring => put_ring(&mut text, aliases),
            Shape::Pairs => put_pairs(&mut text, pairs),
            Shape::LineUp => put_line(&mut text, pairs, &upward(alloc, pairs)?),
            Shape::LineDown => put_line(&mut text, pairs, &downward(alloc, pairs)?),
            Shape::LineScattered => put_line(&mut text, pairs, &scattered(alloc, pairs, 1)?),
            Shape::Tree => put_tree(&mut text, aliases),
            Shape::Complete => put_complete(&mut text, aliases.min(2000)),
            Shape::Star => put_star(&mut text, aliases),
            Shape::Random => put_random(alloc, &mut text, aliases),
        }?;
        Ok(text)
    }
}

fn put_ring(text: &mut String, aliases: u32) -> Result<(), AllocError>
    requires { aliases ≤ 10000000 }
{
    for k in 0..aliases {
        let next = (k + 1) % aliases;
        writeln!(text, "a{k}: a{next}")?;
    }
    Ok(())
}

fn put_pairs(text: &mut String, pairs: u32) -> Result<(), AllocError> {
    for k in 0..pairs {
        writeln!(text, "a{k}: b{k}\nb{k}: a{k}")?;
    }
    Ok(())
}

// The numbers of the pairs of a line, in their order.
fn upward(alloc: Global, pairs: u32) -> Result<Vec<u32>, AllocError> {
    (0..pairs).collect(alloc)
}

fn downward(alloc: Global, pairs: u32) -> Result<Vec<u32>, AllocError> {
    (0..pairs).rev().collect(alloc)
}

fn scattered(alloc: Global, pairs: u32, seed: u64) -> Result<Vec<u32>, AllocError> {
    let mut order = upward(alloc, pairs)?;
    let mut rng = Xoshiro256PlusPlus::seed_from_u64(seed);
    order.as_mut_slice().shuffle(&mut rng);
    Ok(order)
}

// The pairs of a line of so many, in this order. The last one leads to no other.
fn put_line(text: &mut String, pairs: u32, order: &[u32]) -> Result<(), AllocError> {
    for k in order {
        writeln!(text, "a{k}: b{k}")?;
        match k.checked_add(1) {
            Some(next) if next < pairs => writeln!(text, "b{k}: a{k}, a{next}")?,
            _ => writeln!(text, "b{k}: a{k}")?,
        }
    }
    Ok(())
}

// A leaf leads to a remote address.
fn put_tree(text: &mut String, aliases: u32) -> Result<(), AllocError>
    requires { aliases ≤ 10000000 }
{
    for k in 0..aliases {
        let left = 2 * k + 1;
        let right = left + 1;
        if right < aliases {
            writeln!(text, "a{k}: a{left}, a{right}")?;
        } else if left < aliases {
            writeln!(text, "a{k}: a{left}")?;
        } else {
            writeln!(text, "a{k}: joe@example.net")?;
        }
    }
    Ok(())
}

// A list of all aliases but one.
fn put_others(text: &mut String, aliases: u32, one: u32) -> Result<(), AllocError> {
    for k in 0..aliases {
        if k != one {
            write!(text, "a{k}, ")?;
        }
    }
    Ok(())
}

fn put_complete(text: &mut String, aliases: u32) -> Result<(), AllocError> {
    for k in 0..aliases {
        write!(text, "a{k}: ")?;
        put_others(text, aliases, k)?;
        text.push('\n')?;
    }
    Ok(())
}

fn put_star(text: &mut String, aliases: u32) -> Result<(), AllocError> {
    write!(text, "a0: ")?;
    put_others(text, aliases, 0)?;
    text.push('\n')?;
    for k in 1..aliases {
        writeln!(text, "a{k}: a0")?;
    }
    Ok(())
}

// Two targets for each alias.
fn put_random(alloc: Global, text: &mut String, aliases: u32) -> Result<(), AllocError> {
    let first = scattered(alloc, aliases, 1)?;
    let second = scattered(alloc, aliases, 2)?;
    for (k, (one, other)) in first.iter().zip(second.iter()).enumerate() {
        writeln!(text, "a{k}: a{one}, a{other}")?;
    }
    Ok(())
}
