// The regions with their cells, a line each: where not all lines fit, first those of regions that the last step changed, then of those that the current row names.
ghost use Rattle.std.specs.Prelude.{◌<◌};
ghost use Rattle.tables.specs.Rows.{region_rows};

use crate::cells::{Span, cells_of, held};
use crate::changes::changed;
use stepper_lines::line::{Line, shown};
use stepper_lines::print::{byte, style};
use stepper_lines::view::View;
use stepper_words::names::NAME_WORDS;
use tables::rows::{REGION_LIMIT, REGION_WIDTH, Region, region_at};

// Lines that are shown, unless all are; fewer where the program is not opened, since what is wrong with it stands above.
const LINES: usize = 10;

const LINES_UNOPENED: usize = 3;

// Which regions come first.
#[derive(Clone, Copy, PartialEq, Eq)]
enum Rank {
    Changed,
    Named,
    Other,
}

// What a region's line is made from. Its cells are those before the last step and after it; of a region that changed they are coloured.
#[derive(Clone, Copy)]
struct Shown<'a> {
    source: &'a [u8],
    names: &'a [u64; NAME_WORDS],
    view: View,
    before: &'a [u64],
    after: &'a [u64],
}

impl Shown<'_> {
    // A cell; where it changed, its old value first.
    fn cell(self, line: Line, first: usize, index: u64, only_changed: bool) -> Line {
        let place = first.wrapping_add(index as usize);
        let old = held(self.before, place);
        let new = held(self.after, place);
        let differs = old != new;
        if only_changed && !differs {
            return line;
        }
        let numbered = line.gap().with(b'[').number(index).text(b"] ");
        let changed = if differs {
            numbered.value(old.kind, old.word).text(b" -> ")
        } else {
            numbered
        };
        changed.value(new.kind, new.word).whole()
    }

    fn cells(self, line: Line, span: Span, only_changed: bool) -> Line {
        let mut made = line;
        for index in 0..span.count {
            if !made.fits() {
                break;
            }
            made = self.cell(made, span.first, index, only_changed);
        }
        made
    }

    fn headed(self, line: Line, region: Region) -> Line {
        line.text(b"  ")
            .name(self.source, self.names, region.name)
            .with(b' ')
            .vector(region.kind, region.length)
            .whole()
    }

    // The changed cells alone, the first written as Quil writes it, from the first column on; with the short mark, where the other would cost a cell.
    fn tight_line(self, line: Line, name: u64, span: Span) -> Line {
        let head = line.name(self.source, self.names, name).whole().join();
        let marked = self.cells(head, span, true);
        let tight = self.cells(head.tight(), span, true);
        if marked.kept < tight.kept {
            return tight.cut();
        }
        marked.cut()
    }

    // A line too long, with a long name shortened. Where that is not enough, of a region that changed the changed cells alone, and without its kind and indentation if need be.
    fn cut_line(self, region: Region, span: Span, changed: bool) -> Line {
        let line = Line::new(self.view).shortened();
        let head = self.headed(line, region);
        let made = self.cells(head, span, false);
        if made.fits() || !changed {
            return made;
        }
        let only = self.cells(head, span, true);
        if only.is_whole() {
            return only.cut();
        }
        self.tight_line(line, region.name, span)
    }

    fn region_line(self, region: Region, span: Span, changed: bool) {
        if changed {
            style(self.view, b"32");
        }
        let head = self.headed(Line::new(self.view), region);
        let whole = self.cells(head, span, false);
        if whole.fits() {
            whole.print();
        } else {
            self.cut_line(region, span, changed).print();
        }
        if changed {
            style(self.view, b"0");
        }
        byte(b'\n');
    }

    // Where the region's cells lie; none, where the program is not opened.
    fn span(self, regions: &[u64], r: usize) -> Span {
        if self.view.cells {
            return cells_of(regions, r);
        }
        Span::EMPTY
    }

    fn has_changed(self, span: Span) -> bool {
        changed(self.before, self.after, span.first, span.count)
    }

    fn line(self, regions: &[u64], r: usize)
        requires { r < region_rows regions.now }
    {
        let span = self.span(regions, r);
        self.region_line(region_at(regions, r), span, self.has_changed(span));
    }

    fn rank(self, regions: &[u64], named: &[bool; REGION_LIMIT], r: usize) -> Rank {
        if self.has_changed(self.span(regions, r)) {
            Rank::Changed
        } else if named.get(r).copied().unwrap_or(false) {
            Rank::Named
        } else {
            Rank::Other
        }
    }

    // The lines of some regions, and how many are left out.
    fn some_lines(self, regions: &[u64], named: &[bool; REGION_LIMIT], lines: usize) {
        let rows = regions.len() / REGION_WIDTH;
        let mut left = lines;
        for rank in [Rank::Changed, Rank::Named, Rank::Other] {
            for r in 0..rows {
                if left > 0 && self.rank(regions, named, r) == rank {
                    self.line(regions, r);
                    left -= 1;
                }
            }
        }
        let changed = (0..rows)
            .filter(|&r| self.rank(regions, named, r) == Rank::Changed)
            .count();
        self.left_out(changed.saturating_sub(lines), rows.saturating_sub(lines));
    }

    fn left_out(self, changed: usize, all: usize) {
        let line = Line::new(self.view).text(b"  .. ").number(all as u64);
        let regions = line.text(b" more regions");
        let told = if changed > 0 {
            regions
                .text(b", ")
                .number(changed as u64)
                .text(b" of them changed")
        } else {
            regions
        };
        told.text(b": m shows all").end();
    }
}

// The regions' rows, with cells where the program is opened.
pub fn region_lines(
    source: &[u8],
    names: &[u64; NAME_WORDS],
    view: View,
    regions: &[u64],
    before: &[u64],
    after: &[u64],
    named: &[bool; REGION_LIMIT],
) {
    let rows = regions.len() / REGION_WIDTH;
    let most = if view.cells { LINES } else { LINES_UNOPENED };
    let lines = shown(view, rows, most);
    let screen = Shown {
        source,
        names,
        view,
        before,
        after,
    };
    if lines < rows {
        screen.some_lines(regions, named, lines);
        return;
    }
    for r in 0..rows {
        screen.line(regions, r);
    }
}
