//! Where the order of items does not depend on how they are read.

ghost use Rattle.std.specs.Prelude.{◌≡◌, true};
ghost use Rattle.fl_statistics.specs.BitStatistics.{bit_statistics};
ghost use Rattle.fl_codec.specs.declared.for_.ItemOrder.TheVariants.{Natural, Signed};
ghost use Rattle.fl_codec.specs.Parts.{encode_chunked_by, encode_global_by, items_of_primitive};
ghost use Rattle.fl_compress.specs.Choices.{part_of};

use crate::parts::{Part, ptype_of};
use fl_column::PrimitiveArray;
use fl_column::laws::stored_integers_are_in_range;
use fl_statistics::BitStatistics;

/// Whether both orders are one: in a signed type, and where no item has all of the type's bits. The wrapped
/// references are the natural ones then.
pub(crate) fn are_orders_one(array: &PrimitiveArray, part: Part, statistics: &BitStatistics) -> bool
    requires { statistics.now ≡ bit_statistics (part_of part array.now).ptype (items_of_primitive (part_of part array.now)) }
    ensures one { result ≡ true → encode_global_by Signed (part_of part array.now) ≡ encode_global_by Natural (part_of part array.now) }
    ensures many { result ≡ true → encode_chunked_by Signed (part_of part array.now) ≡ encode_chunked_by Natural (part_of part array.now) }
{
    stored_integers_are_in_range(array);
    let _validity = array.validity();
    if ptype_of(array, part).is_unsigned() {
        return statistics.widest == 0;
    }
    true
}
