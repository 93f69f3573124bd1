// The reader and the writer as one kind of stream: a state that goes in and comes back by value, with what each call tells. A trait of its own beside
// the law's (`lentlaw`), which say what a call may do: the program promises nothing of what it reads and writes.
use answer::Stepped;
use stream::reader::Reader;
use writing::Writer;

pub(crate) trait Stream: Copy {
    fn step(self, piece: &[u8], out: &mut [u8]) -> Stepped<Self>;

    fn finish(self, out: &mut [u8]) -> Stepped<Self>;
}

impl Stream for Reader {
    fn step(self, piece: &[u8], out: &mut [u8]) -> Stepped<Reader> {
        Reader::step(self, piece, out)
    }

    // A reader's finish writes nothing.
    fn finish(self, _out: &mut [u8]) -> Stepped<Reader> {
        Reader::finish(self)
    }
}

impl Stream for Writer {
    fn step(self, piece: &[u8], out: &mut [u8]) -> Stepped<Writer> {
        Writer::step(self, piece, out)
    }

    fn finish(self, out: &mut [u8]) -> Stepped<Writer> {
        Writer::finish(self, out)
    }
}
