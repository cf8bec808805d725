// How things are shown: the names that have a text, REAL words as bits, all rows and cells, any cells, colours, keys echoed.
#[derive(Clone, Copy)]
pub struct View {
    pub names: usize,
    pub bits: bool,
    pub all: bool,
    pub cells: bool,
    pub colour: bool,
    pub echo: bool,
}

impl View {
    pub fn with_bits(self) -> View {
        View {
            bits: !self.bits,
            ..self
        }
    }

    pub fn with_all(self) -> View {
        View {
            all: !self.all,
            ..self
        }
    }

    pub fn with_cells(self, cells: bool) -> View {
        View { cells, ..self }
    }

    pub fn with_names(self, names: usize) -> View {
        View { names, ..self }
    }
}
