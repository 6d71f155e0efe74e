//! The operations of a kernel's code for the lanes of a warp.
use kir::Operand;
use ocl_ast::ParamList;
use ocl_program::LocalArray;
use vx_base::{Alu, Elem, Pos};

/// A control register.
#[derive(Clone, Copy, Debug, PartialEq, Eq)]
pub enum Csr {
    /// The number of the lane in its warp.
    LaneNumber,
    /// The number of the warp in its core.
    WarpNumber,
    /// The number of the core.
    CoreNumber,
    /// The lanes that are active now.
    MaskNow,
}

/// An operation. An operand is the value of a register, as a variable of that number, or a number.
#[derive(Clone, Copy, Debug, PartialEq, Eq)]
pub enum VOp {
    /// A warp may begin to run here.
    Fresh,
    /// A value into a register.
    Copy {
        /// The register.
        register: u32,
        /// The value.
        value: Operand,
    },
    /// What an operation on two words gives, into a register.
    Compute {
        /// The register.
        register: u32,
        /// The operation.
        op: Alu,
        /// The first word.
        left: Operand,
        /// The second word.
        right: Operand,
    },
    /// A value cut to a type, into a register.
    Cut {
        /// The register.
        register: u32,
        /// The type.
        elem: Elem,
        /// The value.
        value: Operand,
    },
    /// A word of the launch block into a register.
    Word {
        /// The register.
        register: u32,
        /// The number of the word.
        word: u32,
    },
    /// A word of the launch block whose number is a sum, into a register.
    WordAt {
        /// The register.
        register: u32,
        /// What is added.
        index: Operand,
        /// The number of the word to which it is added.
        word: u32,
    },
    /// A control register into a register.
    Learn {
        /// The register.
        register: u32,
        /// The control register.
        csr: Csr,
    },
    /// The element at an address into a register.
    Fetch {
        /// The register.
        register: u32,
        /// The type of the element.
        elem: Elem,
        /// The address.
        address: Operand,
    },
    /// A value into the element at an address.
    Write {
        /// The type of the element.
        elem: Elem,
        /// The address.
        address: Operand,
        /// The value.
        value: Operand,
    },
    /// To a place if the operand is 0.
    IfZero {
        /// The operand.
        test: Operand,
        /// The place.
        place: u32,
    },
    /// To a place if the operand is not 0.
    IfNot {
        /// The operand.
        test: Operand,
        /// The place.
        place: u32,
    },
    /// To a place.
    Goto {
        /// The place.
        place: u32,
    },
    /// The warp parts by the operand.
    Split {
        /// The operand.
        test: Operand,
    },
    /// The warp meets again.
    Join,
    /// Only lanes whose operand is not 0 go on, or those of a mask if there is none.
    Pred {
        /// The operand.
        test: Operand,
        /// The register that holds the mask.
        mask: u32,
    },
    /// Only lanes of a mask go on.
    Tmc {
        /// The mask.
        mask: Operand,
    },
    /// Warps begin to run at a place.
    Wspawn {
        /// How many run then.
        count: Operand,
        /// The place.
        place: u32,
    },
    /// A barrier for all warps of the group.
    Bar {
        /// Its number in the kernel.
        site: u32,
    },
    /// A fault.
    Trap {
        /// The place of the source.
        pos: Pos,
    },
    /// A loop is entered.
    Enter,
    /// The loop is left if the operand is 0, else a turn of it begins.
    Leaves {
        /// The operand.
        test: Operand,
        /// The place behind the loop.
        place: u32,
    },
    /// A turn of the loop is over.
    Again {
        /// The place where the loop goes on.
        place: u32,
    },
}

/// The code of a kernel.
#[derive(Debug, Drop)]
pub struct VCode {
    /// Its parameters in order.
    pub params: ParamList,
    /// The `__local` arrays that it declares, in order.
    pub arrays: Vec<LocalArray>,
    /// How many registers it has.
    pub registers: u32,
    /// Its operations in order.
    pub ops: Vec<VOp>,
}
