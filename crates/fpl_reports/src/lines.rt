// A report that is written row by row.
ghost use Rattle.std.specs.Prelude.{◌≡◌, ◌++◌, [], IfOk, map, string_bytes};
ghost use Rattle.std.specs.List.{flat_map};
ghost use Rattle.std.specs.Fmt.{decimal, signed_decimal};
ghost use Rattle.csv.specs.Writing.{default_writer, row_text};

use csv::{Writer, WriterBuilder};
use fpl_base::Memory;
use std::alloc::Global;
use std::marker::Model;

// Rows of comma-separated fields. A contract sees the text that they have so far.
#[derive(Drop)]
pub(crate) struct Report {
    writer: Writer<Vec<u8>>,
}

impl Model for Report {
    ghost use Rattle.std.specs.Prelude.{ℕ, List};
    ghost use Rattle.fpl_reports.specs.Writers.{IsFresh, held};

    ghost Value = { List ℕ };

    ghost view = { λ r. held r.writer };

    ghost invariant = { λ r. IsFresh r.writer };
}

impl Report {
    pub(crate) fn new(alloc: Global) -> Self
        ensures { result ≡ [] }
    {
        Report {
            writer: WriterBuilder::new().from_writer(Vec::new(alloc)),
        }
    }

    // The report with this row at its end.
    pub(crate) fn with(self, fields: &[&[u8]]) -> Result<Self, Memory>
        ensures { IfOk result (λ report.
            report ≡ self ++ row_text default_writer (map (λ field. field.now) fields.now)) }
    {
        let Report { mut writer } = self;
        match writer.write_fields(fields) {
            Ok(()) => Ok(Report { writer }),
            Err(_) => Err(Memory),
        }
    }

    pub(crate) fn text(self) -> Result<Vec<u8>, Memory>
        ensures { IfOk result (λ text. text.items ≡ self) }
    {
        match self.writer.into_inner() {
            Ok(text) => Ok(text),
            Err(_) => Err(Memory),
        }
    }
}

pub(crate) fn number(alloc: Global, n: u64) -> Result<String, Memory>
    ensures { IfOk result (λ text. string_bytes text ≡ decimal n) }
{
    Ok(format!(in alloc; "{n}")?)
}

pub(crate) fn signed(alloc: Global, n: i32) -> Result<String, Memory>
    ensures { IfOk result (λ text. string_bytes text ≡ signed_decimal n) }
{
    Ok(format!(in alloc; "{n}")?)
}

// What has a row of its own in a report.
pub(crate) trait Line: Sized {
    ghost use Rattle.std.specs.Prelude.{ℕ, List};

    /// Its fields.
    ghost fields: { Self → List (List ℕ) };

    /// A report with its row at the end.
    fn put(&self, alloc: Global, report: Report) -> Result<Report, Memory>
        ensures { IfOk result
            (λ longer. longer ≡ report ++ row_text default_writer (fields self.now)) };
}

// The report with the rows of all at its end.
pub(crate) fn put_lines<T: Line>(
    alloc: Global,
    report: Report,
    lines: &[T],
) -> Result<Report, Memory>
    ensures { IfOk result (λ longer.
        longer ≡ report ++ flat_map (row_text default_writer) (map T.fields lines.now)) }
{
    let mut longer = report;
    for line in lines {
        longer = line.put(alloc, longer)?;
    }
    Ok(longer)
}
