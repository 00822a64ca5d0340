//! The core methods by their names.
ghost use Rattle.std.specs.Prelude.{◌≡◌, map};
ghost use Rattle.rows_class.specs.Named as named;
ghost use Rattle.rows_class.specs.Rows as rows;

/// A core method of this crate.
#[derive(Clone, Copy, Debug, PartialEq, Eq)]
pub enum ClassRow {
    Name,
    ToText,
    Matches,
    IsBelow,
    IsAtMost,
    Ancestors,
    Include,
    HasMethod,
    Reader,
    Writer,
    Accessor,
    DefineMethod,
    AliasMethod,
    UndefineMethod,
    RemoveMethod,
    Constant,
    SetConstant,
    HasConstant,
    Public,
    Private,
    Protected,
    Allocate,
    Superclass,
    NewClass,
    NewModule,
}

/// A core method with its name.
type Named = (&'static [u8], ClassRow);

pub const MODULE_ROWS: [Named; 22] = [
    (b"name", ClassRow::Name),
    (b"to_s", ClassRow::ToText),
    (b"inspect", ClassRow::ToText),
    (b"===", ClassRow::Matches),
    (b"<", ClassRow::IsBelow),
    (b"<=", ClassRow::IsAtMost),
    (b"ancestors", ClassRow::Ancestors),
    (b"include", ClassRow::Include),
    (b"method_defined?", ClassRow::HasMethod),
    (b"attr_reader", ClassRow::Reader),
    (b"attr_writer", ClassRow::Writer),
    (b"attr_accessor", ClassRow::Accessor),
    (b"define_method", ClassRow::DefineMethod),
    (b"alias_method", ClassRow::AliasMethod),
    (b"undef_method", ClassRow::UndefineMethod),
    (b"remove_method", ClassRow::RemoveMethod),
    (b"const_get", ClassRow::Constant),
    (b"const_set", ClassRow::SetConstant),
    (b"const_defined?", ClassRow::HasConstant),
    (b"public", ClassRow::Public),
    (b"private", ClassRow::Private),
    (b"protected", ClassRow::Protected),
];

pub const MODULE_CLASS_ROWS: [Named; 1] = [(b"new", ClassRow::NewModule)];

pub const CLASS_ROWS: [Named; 2] = [
    (b"allocate", ClassRow::Allocate),
    (b"superclass", ClassRow::Superclass),
];

pub const CLASS_CLASS_ROWS: [Named; 1] = [(b"new", ClassRow::NewClass)];

/// The methods of the main object itself, which act on Object.
pub const MAIN_ROWS: [Named; 4] = [
    (b"include", ClassRow::Include),
    (b"define_method", ClassRow::DefineMethod),
    (b"public", ClassRow::Public),
    (b"private", ClassRow::Private),
];

/// The methods of this crate that a segment of the rows has, by their names.
#[tactic(auto, unfolding(crate::specs::Named::module_rows, crate::specs::Named::module_class_rows, crate::specs::Named::class_rows, crate::specs::Named::class_class_rows, crate::specs::Named::main_rows))]
pub fn rows_of(segment: u16) -> &'static [(&'static [u8], ClassRow)]
    ensures { map (λ r. (r.0.now, r.1)) result.now ≡ named.rows segment }
{
    match segment {
        4 => &MODULE_ROWS,
        5 => &MODULE_CLASS_ROWS,
        6 => &CLASS_ROWS,
        7 => &CLASS_CLASS_ROWS,
        77 => &MAIN_ROWS,
        _ => &[],
    }
}

impl ClassRow {
    /// Whether it needs a block.
    pub(crate) fn wants_block(self) -> bool
        ensures { result ≡ rows.wants_block self }
    {
        matches!(self, ClassRow::DefineMethod)
    }

    /// At least and at most how many arguments it takes; none stands for no bound.
    pub(crate) fn counts(self) -> (u64, Option<u64>)
        ensures { result ≡ rows.counts self }
    {
        match self {
            ClassRow::Matches
            | ClassRow::IsBelow
            | ClassRow::IsAtMost
            | ClassRow::HasMethod
            | ClassRow::DefineMethod
            | ClassRow::Constant
            | ClassRow::HasConstant => (1, Some(1)),
            ClassRow::AliasMethod | ClassRow::SetConstant => (2, Some(2)),
            ClassRow::NewClass => (0, Some(1)),
            ClassRow::Include => (1, None),
            ClassRow::Reader
            | ClassRow::Writer
            | ClassRow::Accessor
            | ClassRow::UndefineMethod
            | ClassRow::RemoveMethod
            | ClassRow::Public
            | ClassRow::Private
            | ClassRow::Protected => (0, None),
            _ => (0, Some(0)),
        }
    }
}
