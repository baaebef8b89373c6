// Items, field by field.
use px_num::{Cell, Vertex};

/// An item, field by field. Fields that its words do not have are 0.
#[derive(Clone, Copy, Debug, PartialEq, Eq)]
pub enum Packet {
    /// No effect: a command without effect, a cache clear, or an item of a wrong length.
    Nop,
    /// Sets the interrupt bit of the status word.
    Irq,
    /// Fills a rectangle with a colour. The mask settings, the drawing area and the drawing offset have no effect on
    /// it.
    Fill {
        /// The cell (16-bit VRAM halfword) that is written, below 2^15.
        color: u16,
        /// The first column, a multiple of 16 below 1024.
        x: u16,
        /// The first row, below the height of video memory.
        y: u16,
        /// The width in cells, a multiple of 16 from 0 to 1024.
        w: u16,
        /// The height in rows, 0 to 511.
        h: u16,
    },
    /// A triangle, or a quad as the triangles a-b-c and b-c-d.
    Poly {
        /// Whether there is a fourth vertex.
        four: bool,
        /// The first vertex.
        a: Vertex,
        /// The second vertex.
        b: Vertex,
        /// The third vertex.
        c: Vertex,
        /// The fourth vertex; the third if there is no fourth.
        d: Vertex,
        /// Whether each vertex has its own colour; otherwise all have that of the command word.
        shaded: bool,
        /// Whether it is textured.
        textured: bool,
        /// Whether it is semi-transparent.
        semi: bool,
        /// Whether texels are drawn without the colour; false if it is not textured.
        raw: bool,
        /// The CLUT attribute, from the first texcoord.
        clut: u16,
        /// The texture page attribute, from the second texcoord.
        page: u16,
    },
    /// A line, or one segment of a polyline.
    Segment {
        /// The first vertex.
        a: Vertex,
        /// The second vertex.
        b: Vertex,
        /// Whether it is semi-transparent.
        semi: bool,
    },
    /// A rectangle.
    Rect {
        /// Its first column, before the drawing offset is added.
        x: i32,
        /// Its first row, before the drawing offset is added.
        y: i32,
        /// The width in cells, 0 to 1023.
        w: u16,
        /// The height in rows, 0 to 511.
        h: u16,
        /// Its colour: red in bits 0 to 7, green in 8 to 15, blue in 16 to 23.
        color: u32,
        /// Whether it is textured.
        textured: bool,
        /// Whether it is semi-transparent.
        semi: bool,
        /// Whether texels are drawn without the colour; false if it is not textured.
        raw: bool,
        /// The column of the first texel within the texture page.
        u: u8,
        /// The row of the first texel within the texture page.
        v: u8,
        /// The CLUT attribute.
        clut: u16,
    },
    /// Copies a rectangle of video memory to another position.
    Copy {
        /// The first cell that is read.
        from: Cell,
        /// The first cell that is written.
        to: Cell,
        /// The width in cells, 1 to 1024.
        w: u16,
        /// The height in rows, 1 to 512.
        h: u16,
    },
    /// Opens a load: the data words that follow are written to a rectangle of video memory.
    Load {
        /// The first column.
        x: u16,
        /// The first row.
        y: u16,
        /// The width in cells, 1 to 1024.
        w: u16,
        /// The height in rows, 1 to 512.
        h: u16,
    },
    /// Opens a store: reads return the cells of a rectangle of video memory.
    Store {
        /// The first column.
        x: u16,
        /// The first row.
        y: u16,
        /// The width in cells, 1 to 1024.
        w: u16,
        /// The height in rows, 1 to 512.
        h: u16,
    },
    /// Two cells of the open load.
    Pixels {
        /// The first in the low half, the second in the high half.
        word: u32,
    },
    /// The end of a polyline.
    Finish,
    /// Sets one of the registers that commands E1h to E6h write.
    Env {
        /// The register: 1 to 6 for E1h to E6h.
        index: u8,
        /// The low 24 bits of the command word.
        value: u32,
    },
}
