// Sections 1 to 4 of a sheet for the machine of a table, or for none (document 01, "The sheet"): sizes, runs of
// glyphs of one class, distinct entries, and cells.
#![tactic(auto)]

ghost use Rattle.std.specs.Prelude.{◌≡◌, ◌++◌, ℕ, ◌+◌, ◌*◌, ◌≤◌, ◌<◌, ◌^◌, length, get_or};
ghost use Rattle.std.proofs.Math.Option.{some};
ghost use Rattle.std.proofs.Math.Decide.{ℕ_discrete};
ghost use Rattle.std.proofs.lemmas.List.Edits.{sets};
ghost use Rattle.fields.specs.Faults.{Clear};
ghost use Rattle.fields.specs.Field.{be32};
ghost use Rattle.encoding.specs.Codes.{many};
ghost use Rattle.encoding.specs.Runs.{runs};
ghost use Rattle.encoding.specs.Sections.{run_code, run_section};
ghost use Rattle.encoding.specs.Upto.{upto};
ghost use Rattle.machine.specs.Cells.{class_at};
ghost use Rattle.machine.specs.Classes.{ClassesAt};
ghost use Rattle.machine.specs.Machine.{machine_fault};
ghost use Rattle.table.specs.Means.{machine_at};
ghost use Rattle.table.specs.Table.{machine_part};
ghost use Rattle.write_machine.specs.Parts.{machine_parts, machine_bytes, OneClass};

use machine::ClassTable;

// The classes that a machine gives the first `glyphs` glyphs: its table, the place from which its offsets count, and its
// class table.
#[derive(Clone, Copy)]
struct Classes<'a> {
    table: &'a [u8],
    here: usize,
    glyphs: usize,
    classes: ClassTable,
    ghost near: { (here < 2 ^ 32) × (glyphs < 2 ^ 16) },
    ghost classes_at: { ClassesAt table.now here classes },
}

impl Classes<'_> {
    // Up to which glyph the glyphs from `glyph` on have one class: the next has another, if it is not 1.
    fn class_end(&self, glyph: usize) -> usize
        requires { glyph < self.now.glyphs }
        ensures { OneClass self.now.table.now self.now.glyphs self.now.here glyph result }
    {
        let first = self.classes.first;
        let past = first + self.classes.count;
        if past <= glyph {
            return self.glyphs;
        }
        if glyph < first {
            return first.min(self.glyphs);
        }
        let at = self.classes.at + 4 + (glyph - first);
        glyph + same_count(self.table, at, past.min(self.glyphs) - glyph)
    }

    // Stores the runs of a class other than 1, and answers how many there are.
    fn put_each(&self, out: &mut [u8], to: usize) -> usize
        requires { to < 2 ^ 60 }
        ensures { (result ≡ length (runs ℕ_discrete 1 0 (upto (class_at self.now.table.now self.now.here) self.now.glyphs))) × (result < 2 ^ 16)
            × (out.new ≡ sets out.old to (many run_code (runs ℕ_discrete 1 0 (upto (class_at self.now.table.now self.now.here) self.now.glyphs)))) }
    {
        let mut glyph: usize = 0;
        let mut count: usize = 0;
        // No count: each turn passes a whole stretch of glyphs.
        while glyph < self.glyphs {
            let class = machine::class_by(self.table, self.classes, glyph as u16);
            let end = self.class_end(glyph);
            if class == 1 {
                glyph = end;
            } else {
                let last = (end - 1) as u16;
                write_runs::put_run(out, to + 6 * count, glyph as u16, last, u16::from(class));
                count += 1;
                glyph = end;
            }
        }
        count
    }

    // Stores section 2, and answers where it ends.
    fn put_class_runs(&self, out: &mut [u8], to: usize) -> usize
        requires { to < 2 ^ 40 }
        ensures { (result ≡ to + length (run_section 1 (upto (class_at self.now.table.now self.now.here) self.now.glyphs))) × (result < to + 2 ^ 19)
            × (out.new ≡ sets out.old to (run_section 1 (upto (class_at self.now.table.now self.now.here) self.now.glyphs))) }
    {
        let count = self.put_each(out, to + 4);
        fields::put_u32(out, to, count as u32);
        to + 4 + 6 * count
    }
}

// How many bytes from `at` on, of `most`, are the same, one after the other.
fn same_count(table: &[u8], at: usize, most: usize) -> usize
    requires { (0 < most) × (at + most < 2 ^ 62) }
    ensures { (0 < result) × (result ≤ most) × ((k : ℕ) → k < result → get_or table.now (at + k) 0 ≡ get_or table.now at 0)
        × ((result < most → get_or table.now (at + result) 0 ≡ get_or table.now at 0 → ⊥)) }
{
    let value = fields::u8_at(table, at);
    for count in 1..most {
        if fields::u8_at(table, at + count) != value {
            return count;
        }
    }
    most
}

// Stores section 1: one machine, its row count and its class count.
fn put_sizes(out: &mut [u8], to: usize, rows: usize, classes: usize)
    requires { (to < 2 ^ 40) × ((rows < 2 ^ 32) × (classes < 2 ^ 32)) }
    ensures { out.new ≡ sets out.old to (be32 1 ++ be32 rows ++ be32 classes) }
{
    fields::put_u32(out, to, 1);
    fields::put_u32(out, to + 4, rows as u32);
    fields::put_u32(out, to + 8, classes as u32);
}

// Stores the sections of the machine, and answers where they end.
fn put_at(table: &[u8], glyphs: usize, here: usize, out: &mut [u8], to: usize) -> usize
    requires sound { (here < 2 ^ 32) × ((glyphs < 2 ^ 16) × (machine_fault table.now glyphs here ≡ Clear)) }
    requires near { to < 2 ^ 38 }
    ensures { (result ≡ to + length (machine_parts (some (machine_at table.now glyphs here)))) × (result < to + 2 ^ 20)
        × (out.new ≡ sets out.old to (machine_parts (some (machine_at table.now glyphs here)))) }
{
    let rows = machine::row_count(table, here);
    let classes = machine::class_count(table, here);
    put_sizes(out, to, rows, classes);
    let of = Classes {
        table,
        here,
        glyphs,
        classes: machine::class_table(table, here),
    };
    let end = of.put_class_runs(out, to + 12);
    write_entries::put_entry_sections(table, here, rows * classes, out, end)
}

// Stores four counts of 0.
fn put_none(out: &mut [u8], to: usize)
    requires { to < 2 ^ 40 }
    ensures { out.new ≡ sets out.old to (be32 0 ++ be32 0 ++ be32 0 ++ be32 0) }
{
    fields::put_u32(out, to, 0);
    fields::put_u32(out, to + 4, 0);
    fields::put_u32(out, to + 8, 0);
    fields::put_u32(out, to + 12, 0);
}

// Stores the sections, and answers where they end; the machine's offset is 0 where there is none.
#[tactic(auto, using(crate::proofs::Laws::by_offset))]
pub fn put_machine(table: &[u8], glyphs: usize, offset: usize, out: &mut [u8], to: usize) -> usize
    requires sound { (offset < 2 ^ 16) × ((glyphs < 2 ^ 16) × (machine_part table.now glyphs offset ≡ Clear)) }
    requires near { to < 2 ^ 38 }
    ensures { (result ≡ to + length (machine_bytes table.now glyphs offset)) × (result < to + 2 ^ 20)
        × (out.new ≡ sets out.old to (machine_bytes table.now glyphs offset)) }
{
    if offset == 0 {
        put_none(out, to);
        return to + 16;
    }
    put_at(table, glyphs, offset + machine::UNREAD, out, to)
}
