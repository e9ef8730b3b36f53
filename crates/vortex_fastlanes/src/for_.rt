//! FoR arrays (frame of reference), with one reference or one for each chunk.

pub use fl_array::for_::{
    FoR, FoRArray, FoRArrayExt, FoRData, FoRReferences, FoRSlots, decompress,
};
