// A law of table pages that callers above cite.
ghost use Rattle.std.specs.Prelude.{◌≡◌, ◌↔◌, ◌+◌, ◌<◌, ℕ, true, Some};
ghost use Rattle.page_device.specs.Block.{Block};
ghost use Rattle.page_layout.specs.Entries.{IsTablePage, table_at};
ghost use Rattle.page_layout.specs.Formed.{is_formed};
ghost use Rattle.page_layout.specs.Shape.{ShapeView, count_pages, first_count_page, first_print_page, map_pages, print_pages};
ghost use Rattle.page_layout.specs.Tables.{IsCountPage, IsMapPage, IsPrintPage};
ghost use Rattle.page_layout.specs.declared.shape.Table.{Table};

/// A test tells of each table page whether it is well formed for its place, by its number on the device or in its table.
pub fn pages_are_tested()
    ensures page { (shape : ShapeView) (t : Table) (page : ℕ) (content : Block) → table_at shape page ≡ Some t
        → (is_formed shape page content ≡ true) ↔ IsTablePage t shape page content }
    ensures map { (shape : ShapeView) (k : ℕ) (content : Block) → k < map_pages shape
        → (is_formed shape (1 + k) content ≡ true) ↔ IsMapPage shape k content }
    ensures count { (shape : ShapeView) (k : ℕ) (content : Block) → k < count_pages shape
        → (is_formed shape (first_count_page shape + k) content ≡ true) ↔ IsCountPage shape k content }
    ensures print { (shape : ShapeView) (k : ℕ) (content : Block) → k < print_pages shape
        → (is_formed shape (first_print_page shape + k) content ≡ true) ↔ IsPrintPage shape k content }
{}
