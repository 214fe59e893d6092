// Classes by their number: loader, file, version, name, superclass.
ghost use Rattle.std.specs.Prelude.{◌≡◌, ◌+◌, ◌*◌, get_or, set, ltb};
ghost use Rattle.definition.specs.Numbers.{class_limit, count_classes, row_cells};
ghost use Rattle.definition.specs.Lists.{rows, write_rows};
ghost use Rattle.definition.specs.Superclasses.{below};
ghost use Rattle.definition.specs.Classes.{super_of};
ghost use Rattle.cells.specs.Optional.{optional};
ghost use Rattle.resolution.specs.Quick.{base_of, file_in, loader_in};
ghost use Rattle.resolution.specs.Cached.{super_row, super_by};
ghost use Rattle.resolution.specs.Lookups.{name_in, super_cell};

use crate::Base;
use definition::numbers::{CLASS_LIMIT, COUNT_CACHE, COUNT_CLASSES, NAME_OBJECT, ROW_CELLS};

// How many classes there are at most.
const CLASSES: u8 = CLASS_LIMIT as u8;

impl<'a> Base<'a> {
    // Cells of a class's row.
    fn row_cell(&self, c: u32, cell: u8) -> u16
        ensures { result ≡ get_or self.now.classes.now (c * row_cells + cell) 0 }
    {
        cells::at(self.classes, c as usize * ROW_CELLS + usize::from(cell))
    }

    // How many classes there are.
    pub(crate) fn class_count(&self) -> u16
        ensures { result ≡ get_or self.now.counts.now count_classes 0 }
    {
        cells::at(self.counts, COUNT_CLASSES)
    }

    // Whether there is a class of that number.
    pub fn is_class(&self, c: u32) -> bool
        ensures { result ≡ ltb c (get_or self.now.counts.now count_classes 0) }
    {
        c < u32::from(self.class_count())
    }

    // The loader of a class, 0 if there is none of that number.
    pub fn loader_of(&self, c: u32) -> u16
        ensures { result ≡ loader_in self.now.counts.now self.now.classes.now c }
    {
        if self.is_class(c) {
            self.row_cell(c, 0)
        } else {
            0
        }
    }

    // The file of a class, as the part of the kept bytes that it is; no bytes if there is no such class.
    pub fn file_of(&self, c: u32) -> &'a [u8]
        ensures { result.now ≡ file_in self.now.counts.now self.now.classes.now self.now.kept.now c }
    {
        if self.is_class(c) {
            classfile::part(self.kept, self.row_cell(c, 1), self.row_cell(c, 2))
        } else {
            &self.kept[0..0]
        }
    }

    // The name of a class, 0 if there is none of that number. Object has no file, and its name is 2.
    pub fn name_of(&self, c: u32) -> u16
        ensures { result ≡ name_in self.now.counts.now self.now.classes.now self.now.kept.now c }
    {
        if !self.is_class(c) {
            return 0;
        }
        if self.row_cell(c, 2) == 0 {
            return NAME_OBJECT;
        }
        classfile::class_name(self.file_of(c))
    }

    // The row of the entry by which a class finds its direct superclass, looked up under the class's own loader; as many as there are rows, if there is none.
    pub fn super_row(&self, c: u32) -> u16
        ensures { result ≡ super_row (base_of self.now) c }
    {
        if !self.is_class(c) {
            return cells::at(self.counts, COUNT_CACHE);
        }
        let name = classfile::super_name(self.file_of(c));
        self.row_of(self.row_cell(c, 0), name)
    }

    // The direct superclass of class c by the row of its entry; its number is lower, or there is none.
    pub fn super_by(&self, c: u32, row: u16) -> Option<u32>
        ensures { result ≡ optional (super_by (base_of self.now).cache c row) }
    {
        let p = self.class_in(row)?;
        if p < c { Some(p) } else { None }
    }

    // The direct superclass.
    pub fn super_of(&self, c: u32) -> Option<u32>
        ensures { result ≡ optional (super_of (base_of self.now) c) }
    {
        self.super_by(c, self.super_row(c))
    }

    // Whether class c is class d or below it.
    pub fn is_below(&self, c: u32, d: u32) -> bool
        ensures { result ≡ below (super_of (base_of self.now)) c d }
    {
        let mut at = c;
        loop {
            if at == d {
                return true;
            }
            let Some(p) = self.super_of(at) else {
                return false;
            };
            at = p;
        }
    }

    // A class's direct superclass as a cell: 0 for none, else its number and 1.
    fn super_cell(&self, c: u8) -> u8
        ensures { result ≡ super_cell (base_of self.now) c }
    {
        match self.super_of(u32::from(c)) {
            Some(p) => (p + 1) as u8,
            None => 0,
        }
    }

    // The cells of classes 0 to 63, written from place 0 on.
    pub fn fill_supers(&self, supers: &mut [u8])
        ensures { supers.new ≡ write_rows set (rows (super_cell (base_of self.now)) class_limit 0) 0 supers.old }
    {
        for i in (0..CLASSES).rev() {
            cells::put(supers, usize::from(i), self.super_cell(i));
        }
    }
}
