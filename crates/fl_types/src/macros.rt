//! Choosing a type by its name.

/// A call of a generic function at the type that `ptype` names, after another type argument if there
/// is one.
#[macro_export]
macro_rules! match_each_integer_ptype {
    ($ptype:expr, $function:ident($($argument:expr),*)) => {
        match $ptype {
            $crate::PType::U8 => $function::<u8>($($argument),*),
            $crate::PType::U16 => $function::<u16>($($argument),*),
            $crate::PType::U32 => $function::<u32>($($argument),*),
            $crate::PType::U64 => $function::<u64>($($argument),*),
            $crate::PType::I8 => $function::<i8>($($argument),*),
            $crate::PType::I16 => $function::<i16>($($argument),*),
            $crate::PType::I32 => $function::<i32>($($argument),*),
            $crate::PType::I64 => $function::<i64>($($argument),*),
        }
    };
    ($ptype:expr, $function:ident::<$source:ident>($($argument:expr),*)) => {
        match $ptype {
            $crate::PType::U8 => $function::<$source, u8>($($argument),*),
            $crate::PType::U16 => $function::<$source, u16>($($argument),*),
            $crate::PType::U32 => $function::<$source, u32>($($argument),*),
            $crate::PType::U64 => $function::<$source, u64>($($argument),*),
            $crate::PType::I8 => $function::<$source, i8>($($argument),*),
            $crate::PType::I16 => $function::<$source, i16>($($argument),*),
            $crate::PType::I32 => $function::<$source, i32>($($argument),*),
            $crate::PType::I64 => $function::<$source, i64>($($argument),*),
        }
    };
}
