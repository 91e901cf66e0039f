// The text of a record or of a head field: that part of the lent text buffer itself (document 01, "What the part does").
#![tactic(auto)]

ghost use Rattle.std.specs.Prelude.{◌≡◌, ◌+◌};
ghost use Rattle.document.specs.Write.{lent, record_text, head_text, head_field};
ghost use Rattle.table_strings.specs.Handing.{lent_at, record_at, head_at};

use document::table::{HeadText, Kind, RECORDS, Table, Text};

// Where start and length do not lie in the buffer, the empty part at its start.
fn part(strings: &[u8], t: Text) -> &[u8]
    ensures bytes { result.now ≡ lent t strings.now }
    ensures place { (result.ref_ptr.0 ≡ strings.entry.ref_ptr.0) × (result.ref_ptr.1 ≡ strings.entry.ref_ptr.1 + lent_at t strings.now) }
{
    let start = t.start;
    let len = t.len;
    if strings.len() < start {
        return &strings[..0];
    }
    if strings.len() - start < len {
        return &strings[..0];
    }
    let end = start + len;
    &strings[start..end]
}

// The text of record i, and the empty part for a record without text or a number outside the table.
pub fn record_text(t: Table, i: usize, strings: &[u8]) -> &[u8]
    ensures bytes { result.now ≡ record_text t i strings.now }
    ensures place { (result.ref_ptr.0 ≡ strings.entry.ref_ptr.0) × (result.ref_ptr.1 ≡ strings.entry.ref_ptr.1 + record_at t i strings.now) }
{
    if RECORDS <= i {
        return &strings[..0];
    }
    let records = t.records;
    let r = records[i];
    let kind = r.kind;
    match kind {
        Kind::FreeText { text } => part(strings, text),
        _ => &strings[..0],
    }
}

fn field_text(t: Table, field: HeadText) -> Text
    ensures { result ≡ head_field t.head field }
{
    let head = t.head;
    match field {
        HeadText::Unit => head.unit,
        HeadText::Instructions => head.instructions,
        HeadText::Roa => head.roa,
        HeadText::Moa => head.moa,
    }
}

pub fn head_text(t: Table, field: HeadText, strings: &[u8]) -> &[u8]
    ensures bytes { result.now ≡ head_text t field strings.now }
    ensures place { (result.ref_ptr.0 ≡ strings.entry.ref_ptr.0) × (result.ref_ptr.1 ≡ strings.entry.ref_ptr.1 + head_at t field strings.now) }
{
    part(strings, field_text(t, field))
}
