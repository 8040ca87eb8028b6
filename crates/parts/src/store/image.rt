ghost use Rattle.std.specs.Prelude.{◌≡◌};
ghost use Rattle.parts.specs.Image.{ImageExample, image, marks_in};

use super::{Marks, Store};

// A store as 14 bytes: ST, lock, voted and proposed, each number most significant byte first.
#[derive(Clone, Copy)]
pub struct Image {
    bytes: [u8; 14],
}

// The numbers in an image; three zeros if it does not begin with ST.
impl From<Image> for Marks {
    ghost from_gives = { λ i m. m ≡ marks_in i.bytes };

    fn from(image: Image) -> Self {
        let [b'S', b'T', a, b, c, d, e, f, g, h, i, j, k, l] = image.bytes else {
            return Marks::default();
        };
        Marks {
            lock: u32::from_be_bytes([a, b, c, d]),
            voted: u32::from_be_bytes([e, f, g, h]),
            proposed: u32::from_be_bytes([i, j, k, l]),
        }
    }
}

// The image of three numbers.
impl From<Marks> for Image {
    ghost from_gives = { λ m i. (i.bytes ≡ image m) × (marks_in i.bytes ≡ m) };

    fn from(marks: Marks) -> Self {
        let [a, b, c, d] = marks.lock.to_be_bytes();
        let [e, f, g, h] = marks.voted.to_be_bytes();
        let [i, j, k, l] = marks.proposed.to_be_bytes();
        Self::new([b'S', b'T', a, b, c, d, e, f, g, h, i, j, k, l])
    }
}

impl Image {
    // The store that any 14 bytes are.
    pub fn new(bytes: [u8; 14]) -> Self
        ensures { result.bytes ≡ bytes }
    {
        Image { bytes }
    }

    // The bytes, for the host to keep.
    pub fn bytes(&self) -> [u8; 14]
        ensures { result ≡ self.now.bytes }
    {
        self.bytes
    }
}

impl Store for Image {
    ghost kept = { λ s. marks_in s.bytes };

    fn load(&self) -> Marks {
        Marks::from(*self)
    }

    fn save(&mut self, marks: Marks)
        ensures kept { marks_in self.new.bytes ≡ marks }
        ensures written { self.new.bytes ≡ image marks }
    {
        *self = Self::from(marks);
    }
}

// The worked example of an image.
pub fn image_stands()
    ensures { ImageExample }
{}
