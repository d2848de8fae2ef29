// The relocation tables in use of a file.
ghost use Rattle.elf_relocations.specs.Placing.{Tables};

use elf_header::Sections;

// The tables that are linked to section `table`: they lie inside the file, and have no more entries than there may be.
#[derive(Clone, Copy)]
pub struct RelocationTables<'a> {
    pub file: Sections<'a>,
    pub table: u32,
    ghost placeable: { Tables file.bytes.now file.headers table },
}
