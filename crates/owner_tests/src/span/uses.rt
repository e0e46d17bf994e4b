// What callers prove by the public clauses alone.
ghost use Rattle.std.specs.Prelude.{◌≡◌, fold, map, unwrap_or, IfOk};
ghost use Rattle.std.specs.Option.{option_copied};
ghost use Rattle.span_core.specs.Loops.{wrapping_sum};
ghost use Rattle.owner_tests.specs.Matrix.{dot, identity, step_of, times};

use crate::span::numbered;
use quiet_core::Quiet;
use span_core::{Domain, Free, ParError, Span, laws, par_map, par_reduce};
use std::alloc::{AllocError, Global};
use std::marker::Model;
use std::sync::Wait;
use std::thread::Threads;

// The leaves of a span tile it: each begins where the one before ends, and the last ends where the span does.
fn walk_leaves(alloc: Global, span: Span) -> Result<u64, AllocError>
    ensures { IfOk result (λ end. end ≡ span.to) }
{
    let leaves = span.leaves(alloc)?;
    let mut next = span.from();
    for leaf in leaves.as_slice() {
        let begins = leaf.from();
        prove!(begins == next);
        next = leaf.to();
    }
    Ok(next)
}

// The values in order, with 0 for each broken member, by whatever number of workers.
fn with_zeros<R: Threads + Wait + Sync>(
    rt: &R,
    alloc: Global,
    list: &Quiet<u64>,
    workers: u32,
) -> Result<Vec<u64>, ParError>
    ensures { IfOk result (λ all.
        all.items ≡ map (λ member. unwrap_or member 0) list.now.members) }
{
    let span = Span::new(0, list.len(), 100);
    let value_or_zero = |_place: u64, value: Option<&u64>| -> u64
        ensures { result ≡ unwrap_or (option_copied value.entry) 0 }
    { value.copied().unwrap_or(0) };
    laws::answers_are_the_map(&value_or_zero);
    par_map(rt, alloc, list, span, workers, value_or_zero, &Free)
}

// The sum of the values, without what does not fit, by whatever number of workers.
fn wrapped_sum<R: Threads + Wait + Sync>(
    rt: &R,
    alloc: Global,
    list: &Quiet<u64>,
    workers: u32,
) -> Result<u64, ParError>
    ensures { IfOk result (λ sum.
        sum ≡ fold wrapping_sum 0 (map (λ member. unwrap_or member 0) list.now.members)) }
{
    let span = Span::new(0, list.len(), 100);
    let value_or_zero = |_place: u64, value: Option<&u64>| -> u64
        ensures { result ≡ unwrap_or (option_copied value.entry) 0 }
    { value.copied().unwrap_or(0) };
    let join = |a: u64, b: u64| -> u64
        ensures { result ≡ wrapping_sum a b }
    { a.wrapping_add(b) };
    laws::answers_are_the_map(&value_or_zero);
    laws::sums_wrap(&join);
    par_reduce(
        rt,
        alloc,
        list,
        span,
        workers,
        value_or_zero,
        0,
        join,
        &Free,
    )
}

// Two rows of two numbers of 64 bits.
#[derive(Clone, Copy)]
struct Matrix {
    a: u64,
    b: u64,
    c: u64,
    d: u64,
}

impl Model for Matrix {
    ghost use Rattle.owner_tests.specs.Matrix.{MatrixView, IsMatrix};

    ghost Value = { MatrixView };

    ghost view = { λ m. record { a = m.a; b = m.b; c = m.c; d = m.d } };

    ghost invariant = { λ m. IsMatrix (record { a = m.a; b = m.b; c = m.c; d = m.d }) };

    ghost inverse = { λ m. record { a = m.a; b = m.b; c = m.c; d = m.d } };
}

impl Domain for Matrix {
    ghost use Rattle.owner_tests.specs.Matrix.{IsMatrix};

    ghost is_in = { λ m. IsMatrix m };

    fn tell(&self) {
        // For the proof: reading a field shows the type's invariant.
        let _first = self.a;
    }
}

// A row times a column, without what does not fit.
#[tactic(auto, using(crate::proofs::Matrix::cut_dot))]
fn row_by_column(a: u64, b: u64, c: u64, d: u64) -> u64
    ensures { result ≡ dot a b c d }
{
    a.wrapping_mul(c).wrapping_add(b.wrapping_mul(d))
}

impl Matrix {
    fn identity() -> Matrix
        ensures { result ≡ identity }
    {
        Matrix {
            a: 1,
            b: 0,
            c: 0,
            d: 1,
        }
    }

    // The step of a continued fraction by a value, or by 0 for a broken member.
    fn step(value: Option<&u64>) -> Matrix
        ensures { result ≡ step_of (option_copied value.entry) }
    {
        Matrix {
            a: value.copied().unwrap_or(0),
            b: 1,
            c: 1,
            d: 0,
        }
    }

    fn times(self, other: Matrix) -> Matrix
        ensures { result ≡ times self other }
    {
        Matrix {
            a: row_by_column(self.a, self.b, other.a, other.c),
            b: row_by_column(self.a, self.b, other.b, other.d),
            c: row_by_column(self.c, self.d, other.a, other.c),
            d: row_by_column(self.c, self.d, other.b, other.d),
        }
    }
}

// The product of the steps by all members, in order, by whatever number of workers: these joins do not
// commute.
fn product<R: Threads + Wait + Sync>(
    rt: &R,
    alloc: Global,
    list: &Quiet<u64>,
    workers: u32,
) -> Result<Matrix, ParError>
    ensures { IfOk result (λ all. all ≡ fold times identity (map step_of list.now.members)) }
{
    let span = Span::new(0, list.len(), 1);
    let step = |_place: u64, value: Option<&u64>| -> Matrix
        ensures { result ≡ step_of (option_copied value.entry) }
    { Matrix::step(value) };
    let join = |m: Matrix, n: Matrix| -> Matrix
        ensures { result ≡ times m n }
    { m.times(n) };
    laws::answers_are_the_map(&step);
    par_reduce(
        rt,
        alloc,
        list,
        span,
        workers,
        step,
        Matrix::identity(),
        join,
        &Free,
    )
}

#[test]
fn leaves_are_walked_to_the_end(rt: HostRuntime) {
    assert!(rt; walk_leaves(rt.alloc(), Span::new(3, 40, 4)) == Ok(40));
}

#[test]
fn the_values_are_mapped_in_order_and_summed(rt: HostRuntime) {
    let list = numbered(&rt, 1000);
    assert!(rt; wrapped_sum(&rt, rt.alloc(), &list, 3) == Ok(499_500));
    match with_zeros(&rt, rt.alloc(), &list, 3) {
        Ok(all) => assert!(rt; all.len() == 1000 && all.get(999) == Some(&999)),
        Err(_refused) => panic!(rt; "no memory"),
    }
}

// 0 + 1 / (1 + 1 / (2 + 1 / 3)) is 7 / 10, and without its last step 2 / 3.
#[test]
fn joins_that_do_not_commute_are_done_in_order(rt: HostRuntime) {
    let list = numbered(&rt, 4);
    for workers in [1, 2, 3, 64].as_slice() {
        let fraction = product(&rt, rt.alloc(), &list, *workers);
        assert!(rt;
            matches!(
                fraction,
                Ok(Matrix {
                    a: 7,
                    b: 2,
                    c: 10,
                    d: 3
                })
            ),
            "{workers}"
        );
    }
}
