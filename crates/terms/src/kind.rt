// The kinds of types, by their numbers.
ghost use Rattle.std.specs.Prelude.{◌≡◌, ◌≤◌};
ghost use Rattle.terms.specs.Kinds.{kind_number, Tells, Decodes, native, is_integer, is_float, is_numeric, is_date, is_string, is_binary, is_list, has_child};

#[derive(Clone, Copy, Debug, PartialEq, Eq)]
pub enum Kind {
    Null = 0,
    Boolean = 1,
    Int8 = 2,
    Int16 = 3,
    Int32 = 4,
    Int64 = 5,
    UInt8 = 6,
    UInt16 = 7,
    UInt32 = 8,
    UInt64 = 9,
    Float16 = 10,
    Float32 = 11,
    Float64 = 12,
    Decimal128 = 13,
    Date32 = 14,
    Date64 = 15,
    Timestamp = 16,
    Interval = 17,
    Utf8 = 18,
    LargeUtf8 = 19,
    Utf8View = 20,
    Binary = 21,
    LargeBinary = 22,
    BinaryView = 23,
    List = 24,
    LargeList = 25,
    ListView = 26,
    LargeListView = 27,
    FixedSizeList = 28,
    Dictionary = 29,
}

// The number tells the kind: no other has it.
impl From<Kind> for u8 {
    ghost from_gives = { Tells };

    fn from(kind: Kind) -> u8 {
        kind as u8
    }
}

// A number that no kind has.
#[derive(Clone, Copy, Debug, PartialEq, Eq)]
pub struct UnknownKind(pub u8);

impl TryFrom<u8> for Kind {
    type Error = UnknownKind;

    ghost try_from_gives = { Decodes };

    fn try_from(number: u8) -> Result<Kind, UnknownKind> {
        Ok(match number {
            0 => Kind::Null,
            1 => Kind::Boolean,
            2 => Kind::Int8,
            3 => Kind::Int16,
            4 => Kind::Int32,
            5 => Kind::Int64,
            6 => Kind::UInt8,
            7 => Kind::UInt16,
            8 => Kind::UInt32,
            9 => Kind::UInt64,
            10 => Kind::Float16,
            11 => Kind::Float32,
            12 => Kind::Float64,
            13 => Kind::Decimal128,
            14 => Kind::Date32,
            15 => Kind::Date64,
            16 => Kind::Timestamp,
            17 => Kind::Interval,
            18 => Kind::Utf8,
            19 => Kind::LargeUtf8,
            20 => Kind::Utf8View,
            21 => Kind::Binary,
            22 => Kind::LargeBinary,
            23 => Kind::BinaryView,
            24 => Kind::List,
            25 => Kind::LargeList,
            26 => Kind::ListView,
            27 => Kind::LargeListView,
            28 => Kind::FixedSizeList,
            29 => Kind::Dictionary,
            _ => return Err(UnknownKind(number)),
        })
    }
}

impl Kind {
    // Int8 to UInt64.
    pub fn is_integer(self) -> bool
        ensures { result ≡ is_integer (kind_number self) }
    {
        matches!(
            self,
            Kind::Int8
                | Kind::Int16
                | Kind::Int32
                | Kind::Int64
                | Kind::UInt8
                | Kind::UInt16
                | Kind::UInt32
                | Kind::UInt64
        )
    }

    // Float16 to Float64.
    pub fn is_float(self) -> bool
        ensures { result ≡ is_float (kind_number self) }
    {
        matches!(self, Kind::Float16 | Kind::Float32 | Kind::Float64)
    }

    // An integer, a float or a decimal.
    pub fn is_numeric(self) -> bool
        ensures { result ≡ is_numeric (kind_number self) }
    {
        self.is_integer() || self.is_float() || self == Kind::Decimal128
    }

    // Date32 or Date64.
    pub fn is_date(self) -> bool
        ensures { result ≡ is_date (kind_number self) }
    {
        matches!(self, Kind::Date32 | Kind::Date64)
    }

    // Utf8, LargeUtf8 or Utf8View.
    pub fn is_string(self) -> bool
        ensures { result ≡ is_string (kind_number self) }
    {
        matches!(self, Kind::Utf8 | Kind::LargeUtf8 | Kind::Utf8View)
    }

    // Binary, LargeBinary or BinaryView.
    pub fn is_binary(self) -> bool
        ensures { result ≡ is_binary (kind_number self) }
    {
        matches!(self, Kind::Binary | Kind::LargeBinary | Kind::BinaryView)
    }

    // A list of any of the five kinds.
    pub fn is_list(self) -> bool
        ensures { result ≡ is_list (kind_number self) }
    {
        matches!(
            self,
            Kind::List
                | Kind::LargeList
                | Kind::ListView
                | Kind::LargeListView
                | Kind::FixedSizeList
        )
    }

    // A list or a Dictionary: what is made of another type.
    pub fn has_child(self) -> bool
        ensures { result ≡ has_child (kind_number self) }
    {
        self.is_list() || self == Kind::Dictionary
    }

    // The kind that stands for all of its class: dates, strings, binaries and lists each have one.
    // (That of a Dictionary is its value's, which a kind alone does not know.)
    pub fn native(self) -> Kind
        ensures { kind_number result ≡ native (kind_number self) }
    {
        match self {
            Kind::Date64 => Kind::Date32,
            Kind::LargeUtf8 | Kind::Utf8View => Kind::Utf8,
            Kind::LargeBinary | Kind::BinaryView => Kind::Binary,
            Kind::LargeList | Kind::ListView | Kind::LargeListView | Kind::FixedSizeList => {
                Kind::List
            }
            kind => kind,
        }
    }
}
