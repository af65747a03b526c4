ghost use Rattle.std.specs.Prelude.{◌≡◌, ◌<◌, ◌≤◌, ◌↔◌, ◌||◌, ℕ, Bool, false, IsTrue, length};
ghost use Rattle.record_spans.specs.Fronts.{AreFronts, IsNew, Misses, Reaches};
ghost use Rattle.record_spans.specs.Spans.{AreApart, is_within};

use crate::span::Span;

/// Whether the records of some spans are a front of each partition. The time is in proportion to
/// the records, and it takes no memory.
pub fn are_fronts(partitions: usize, spans: &[Span]) -> bool
    requires some { 0 < partitions }
    requires few { partitions ≤ 16 }
    requires apart { AreApart 0 spans.now }
    ensures { IsTrue result ↔ AreFronts partitions spans.now }
{
    // 128 bits, since the next place of a partition may lie past the last number of 64
    let mut places = [0; 16];
    let next: &mut [u128] = &mut places[..partitions];
    for partition in 0..partitions {
        next[partition] = partition as u128;
    }
    for span in spans {
        if !goes_on(next, span) {
            return false;
        }
    }
    true
}

/// Whether each record of a span is the next one of its partition. The next one of a partition is
/// then the one after its records in the span.
fn goes_on(next: &mut [u128], span: &Span) -> bool
    requires some { 0 < length next.old }
    requires few { length next.old ≤ 16 }
    requires first { 0 < span.now.first }
    requires some_records { span.now.first ≤ span.now.last }
    ensures len { length next.new ≡ length next.old }
    ensures goes { IsTrue result → (passed : ℕ → Bool) → Reaches passed next.old
        → IsNew passed span.now → Reaches (λ n. passed n || is_within span.now n) next.new }
    ensures misses { result ≡ false → (passed : ℕ → Bool) → Reaches passed next.old
        → IsNew passed span.now → Misses (length next.old) passed span.now }
{
    for at in span.first - 1..span.last {
        let partition = at as usize % next.len();
        if next[partition] != u128::from(at) {
            return false;
        }
        next[partition] = u128::from(at) + next.len() as u128;
    }
    true
}
