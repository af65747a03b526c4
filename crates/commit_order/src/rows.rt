ghost use Rattle.std.specs.Prelude.{◌≡◌, ◌≤◌, ◌++◌, [], ◌∷◌, length, IfOk, OnOk};
ghost use Rattle.attempt_fates.specs.Fates.{records_in};
ghost use Rattle.commit_order.specs.Offices.{AreWithin};

use record_offers::Offers;
use record_spans::{Span, Spans};
use std::alloc::Global;
use tuple_account::storm_values::{Duplicate, Memory, Rows};

/// Copies of the records of some spans, in their order.
pub(crate) fn copied_records(alloc: Global, offers: &Offers, spans: &Spans) -> Result<Rows, Memory>
    requires { AreWithin (length offers.now.records) spans.now }
    ensures { IfOk result (λ rows. rows ≡ records_in offers.now.records spans.now) }
{
    let mut rows = Rows::new(alloc);
    for span in spans.as_slice() {
        copy_span(offers, span, &mut rows)?;
    }
    Ok(rows)
}

// Adds copies of the records of a span.
fn copy_span(offers: &Offers, span: &Span, into: &mut Rows) -> Result<(), Memory>
    requires first { 1 ≤ span.now.first }
    requires some { span.now.first ≤ span.now.last }
    requires last { span.now.last ≤ length offers.now.records }
    ensures { OnOk result
        (into.new ≡ into.old ++ records_in offers.now.records (span.now ∷ [])) }
{
    for before in span.first - 1..span.last {
        into.push(offers.row(before + 1).copy()?)?;
    }
    Ok(())
}
