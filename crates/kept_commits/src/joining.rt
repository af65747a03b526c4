ghost use Rattle.std.specs.Prelude.{◌≡◌, ◌≤◌, ◌<◌, ◌++◌, ◌||◌, ℕ, IfOk, OnOk, IsTrue, IsPermutation, false, length};
ghost use Rattle.std.specs.List.{AllByRecursion};
ghost use Rattle.std.specs.List.Sorted.{IsNonDecreasingBy};
ghost use Rattle.record_spans.specs.Spans.{end_of, is_within, stands_in};
ghost use Rattle.record_spans.specs.declared.span.Span.{Span};
ghost use Rattle.report_grammar.specs.WellFormed.{IsSpan};
ghost use Rattle.resume_meta.specs.Meta.{AreSeparate};
ghost use Rattle.kept_commits.specs.Steps.{begin_of};

use record_spans::Span;
use std::alloc::Global;
use storm_values::Memory;

/// The spans of two lists, joined where they touch, in the order of their numbers. None of them may
/// be in order before. It takes k log k steps for k spans.
pub(crate) fn joined(alloc: Global, some: &[Span], others: &[Span]) -> Result<Vec<Span>, Memory>
    ensures separate { IfOk result (λ runs. AreSeparate runs.items) }
    ensures numbers { IfOk result (λ runs. (n : ℕ) →
        stands_in runs.items n ≡ (stands_in some.now n || stands_in others.now n)) }
    ensures fit { IfOk result (λ runs. AllByRecursion IsSpan runs.items) }
{
    let mut spans = both(alloc, some, others)?;
    sort(&mut spans);
    runs_of(alloc, &spans)
}

fn both(alloc: Global, some: &[Span], others: &[Span]) -> Result<Vec<Span>, Memory>
    ensures { IfOk result (λ all. all.items ≡ some.now ++ others.now) }
{
    let mut all = Vec::from_slice(alloc, some)?;
    all.extend_from_slice(others)?;
    Ok(all)
}

fn sort(spans: &mut Vec<Span>)
    ensures same { IsPermutation spans.old.items spans.new.items }
    ensures rising { IsNonDecreasingBy (λ (s : Span). s.first) spans.new.items }
{
    spans.sort_unstable_by_key(|span| span.first);
}

/// The runs of spans that are in the order of their first numbers.
fn runs_of(alloc: Global, spans: &[Span]) -> Result<Vec<Span>, Memory>
    requires { IsNonDecreasingBy (λ (s : Span). s.first) spans.now }
    ensures separate { IfOk result (λ runs. AreSeparate runs.items) }
    ensures numbers { IfOk result (λ runs. (n : ℕ) →
        stands_in runs.items n ≡ stands_in spans.now n) }
    ensures fit { IfOk result (λ runs. AllByRecursion IsSpan runs.items) }
{
    let mut runs = Vec::new(alloc);
    for span in spans {
        add(&mut runs, *span)?;
    }
    Ok(runs)
}

/// Adds a span that begins at or above where the last run begins. An empty one is left out.
fn add(runs: &mut Vec<Span>, span: Span) -> Result<(), Memory>
    requires separate { AreSeparate runs.old.items }
    requires behind { begin_of 0 runs.old.items ≤ span.first }
    ensures separate { OnOk result (AreSeparate runs.new.items) }
    ensures behind { OnOk result (begin_of 0 runs.new.items ≤ span.first) }
    ensures numbers { OnOk result ((n : ℕ) →
        stands_in runs.new.items n ≡ (stands_in runs.old.items n || is_within span n)) }
    ensures fit { OnOk result (AllByRecursion IsSpan runs.old.items
        → AllByRecursion IsSpan runs.new.items) }
{
    if span.last < span.first {
        return Ok(());
    }
    if touches(runs, span.first) {
        let end = runs.len() - 1;
        let run = &mut runs[end];
        run.last = run.last.max(span.last);
        return Ok(());
    }
    runs.push(span)?;
    Ok(())
}

/// Whether there is a last run, and a number lies in it, before it or right behind it.
fn touches(runs: &[Span], number: u64) -> bool
    ensures some { IsTrue result → 0 < length runs.now }
    ensures near { IsTrue result → number ≤ end_of 0 runs.now }
    ensures far { result ≡ false → 0 < length runs.now → end_of 0 runs.now < number }
{
    match runs.last() {
        Some(run) => number.saturating_sub(run.last) <= 1,
        None => false,
    }
}
